/// The body is a sequence header.
pub const SEQUENCE_HEADER: u8 = 0x00;

/// Behind it the sequence has nothing more. It has no body.
pub const END_OF_SEQUENCE: u8 = 0x10;

pub const AUXILIARY_DATA: u8 = 0x20;

pub const PADDING_DATA: u8 = 0x30;

/// The body is a picture number, transform parameters and low-delay slices.
pub const LOW_DELAY_PICTURE: u8 = 0xC8;

/// The body is a picture number, transform parameters and high-quality slices.
pub const HIGH_QUALITY_PICTURE: u8 = 0xE8;

/// Transform parameters or some high-quality slices of a picture.
pub const HIGH_QUALITY_FRAGMENT: u8 = 0xEC;
