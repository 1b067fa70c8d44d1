//! Profiles (ST 2042-1, profiles): which kind of picture a sequence has.

/// Its pictures are of parse code C8, in hexadecimal.
pub const LOW_DELAY_PROFILE: u8 = 0;

/// Its pictures are of parse code E8, and its fragments of EC.
pub const HIGH_QUALITY_PROFILE: u8 = 3;
