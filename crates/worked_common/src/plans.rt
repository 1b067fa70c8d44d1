use vc_types::{Plan, Shape};

// The default quantisation matrix of wavelet 3 at depth 1.
const MATRIX: [u8; 16] = [8, 4, 4, 0, 0, 0, 0, 0, 0, 0, 0, 0, 0, 0, 0, 0];

// A picture in 4:4:4 with 8 bits, by wavelet 3 at depth 1, in slices side by side.
macro_rules! plan {
    ($width:literal, $height:literal, $slices:literal, $matrix:expr) => {
        Plan {
            shape: Shape {
                luma_width: $width,
                luma_height: $height,
                colour_width: $width,
                colour_height: $height,
                luma_depth: 8,
                colour_depth: 8,
            },
            wavelet: 3,
            wavelet_ho: 3,
            depth: 1,
            depth_ho: 0,
            slices_x: $slices,
            slices_y: 1,
            prefix: 0,
            scaler: 1,
            matrix: $matrix,
        }
    };
}

/// A picture of 2 by 2 samples, 4:4:4, 8 bits, by wavelet 3 at depth 1 with its default matrix, in one slice.
pub const ONE_SLICE: Plan = plan!(2, 2, 1, MATRIX);

/// A picture of 8 by 4 samples, 4:4:4, 8 bits, by wavelet 3 at depth 1 with its default matrix, in two
/// slices side by side.
pub const TWO_SLICES: Plan = plan!(8, 4, 2, MATRIX);

/// The same of 6 by 2 samples in three slices side by side.
pub const THREE_SLICES: Plan = plan!(6, 2, 3, MATRIX);

/// `TWO_SLICES` with a matrix of zeros.
pub const UNWEIGHTED_SLICES: Plan = plan!(8, 4, 2, [0; 16]);
