//! What each parse info header has (ST 2042-1, parse info header).

/// "BBCD".
pub const PARSE_INFO_PREFIX: u32 = 0x4242_4344;

/// How many bytes a parse info header has.
pub const PARSE_INFO_BYTES: usize = 13;
