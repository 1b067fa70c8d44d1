/// The payload of a sequence header: frames of 8 by 4 samples, 4:4:4, 8 bits.
pub const HEADER_PAYLOAD: [u8; 9] = [0, 0, 0, 0, 0x70, 0xf0, 0x63, 0xc0, 0x80];

/// The payload of the transform parameters of a picture of that sequence: wavelet 3, depth 1, 2 by 1 slices.
pub fn params_payload(number: u8) -> [u8; 19] {
    [
        0, 0, 0, 0xec, 0, 0, 0, number, 0, 0, 0, 1, 0, 3, 0, 0, 0x09, 0x66, 0x40,
    ]
}

/// The payload of one slice of the picture, all zeros, in column `x`.
pub fn slice_payload(number: u8, x: u8) -> [u8; 24] {
    [
        0, 0, 0, 0xec, 0, 0, 0, number, 0, 0, 0, 1, 0, 4, 0, 1, 0, x, 0, 0, 0, 0, 0, 0,
    ]
}
