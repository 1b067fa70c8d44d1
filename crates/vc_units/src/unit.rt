/// A data unit (ST 2042-1, data unit).
#[derive(Drop)]
pub struct Unit {
    /// The parse code, in hexadecimal: 00 for a sequence header, 10 for an end of sequence, 20 for auxiliary
    /// data, 30 for padding, C8 for a low-delay picture and E8 for a high-quality picture.
    pub code: u8,
    /// The place of its first byte, counted from where the reader began.
    pub at: u64,
    /// What follows the 13 bytes of the parse info; nothing in an end of sequence.
    pub body: Vec<u8>,
}
