ghost use Rattle.std.specs.Prelude.{◌≡◌, ◌+◌, ◌*◌, ◌≤◌, IsTrue};
ghost use Rattle.vc_types.specs.Limits.{shape_fits, slices_fit, slice_bytes_fit, padded_luma_fits};
ghost use Rattle.vc_types.specs.Limits.{matrix_fits};
ghost use Rattle.vc_types.specs.Quantisation.{filled_matrix, used_entries};

use crate::shape::Shape;

/// How a picture was transformed and cut into slices: the transform parameters that were accepted (ST 2042-1,
/// transform parameters), with the picture's shape. The matrix has a value for each subband in order; entries
/// that no subband uses are 0.
#[derive(Clone, Copy)]
pub struct Plan {
    pub shape: Shape,
    pub wavelet: u8,
    pub wavelet_ho: u8,
    pub depth: u8,
    pub depth_ho: u8,
    pub slices_x: u32,
    pub slices_y: u32,
    pub prefix: u32,
    pub scaler: u32,
    pub matrix: [u8; 16],
    pub ghost shape_is_coded: { IsTrue (shape_fits shape) },
    pub ghost wavelet_is_known: { wavelet ≤ 6 },
    pub ghost wavelet_ho_is_known: { wavelet_ho ≤ 6 },
    pub ghost some_levels: { 1 ≤ depth },
    pub ghost few_levels: { depth + depth_ho ≤ 5 },
    pub ghost slices: { IsTrue (slices_fit slices_x slices_y) },
    pub ghost slice_bytes: { IsTrue (slice_bytes_fit prefix scaler) },
    pub ghost padded_luma: { IsTrue (padded_luma_fits shape depth_ho depth) },
    pub ghost matrix_values: { IsTrue (matrix_fits matrix) },
    pub ghost unused_entries: { filled_matrix (used_entries depth_ho depth matrix) ≡ matrix },
}

impl Plan {
    ghost use Rattle.std.specs.Prelude.{◌≡◌};
    ghost use Rattle.vc_types.specs.SameValues.{same_luma, same_colour, same_transform};
    ghost use Rattle.vc_types.specs.SameValues.{same_slicing, same_parameters};
    ghost use Rattle.vc_types.specs.TransformParameters.{parameters_of};

    /// Whether both plans have the same shape and the same transform parameters.
    #[tactic(auto, unfolding(crate::specs::SameValues::same_parameters))]
    pub fn is_same(&self, other: &Plan) -> bool
        ensures { result ≡ same_parameters (parameters_of self.now) (parameters_of other.now) }
    {
        self.shape.has_same_luma(&other.shape)
            && self.shape.has_same_colour(&other.shape)
            && self.is_transformed_alike(other)
            && self.is_sliced_alike(other)
            && self.matrix == other.matrix
    }

    fn is_transformed_alike(&self, other: &Plan) -> bool
        ensures { result ≡ same_transform (parameters_of self.now) (parameters_of other.now) }
    {
        self.wavelet == other.wavelet
            && self.wavelet_ho == other.wavelet_ho
            && self.depth == other.depth
            && self.depth_ho == other.depth_ho
    }

    fn is_sliced_alike(&self, other: &Plan) -> bool
        ensures { result ≡ same_slicing (parameters_of self.now) (parameters_of other.now) }
    {
        self.slices_x == other.slices_x
            && self.slices_y == other.slices_y
            && self.prefix == other.prefix
            && self.scaler == other.scaler
    }
}
