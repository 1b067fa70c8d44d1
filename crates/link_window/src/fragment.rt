use bytes::Bytes;
use link_gather::SlicePart;

/// What a fragment has of its picture (RFC 8450, 4).
#[derive(Drop)]
pub enum Part {
    /// Transform parameters, and whatever follows them.
    Params(Bytes),
    Slices(SlicePart),
}

/// A part of a picture, with the 32 bits of the picture's number.
#[derive(Drop)]
pub struct Fragment {
    pub number: u32,
    pub part: Part,
}
