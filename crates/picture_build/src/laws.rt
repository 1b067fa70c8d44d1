ghost use Rattle.std.specs.Prelude.{◌≡◌, Bool, true, List, IsTrue};
ghost use Rattle.field_pairs.specs.Sizes.{HaveHeightsUpTo};
ghost use Rattle.frame_writer.specs.Samples.{HaveByteSamples};
ghost use Rattle.frame_writer.specs.Shapes.{HaveShape};
ghost use Rattle.vc_types.specs.FieldPairs.{woven};
ghost use Rattle.vc_types.specs.Limits.{shape_fits};
ghost use Rattle.vc_types.specs.Planes.{Planes, planes_of};
ghost use Rattle.vc_types.specs.SequenceHeader.{Sequence, picture_shape};
ghost use Rattle.vc_types.specs.Slices.{Coefficients};
ghost use Rattle.vc_types.specs.TransformParameters.{Parameters};
ghost use Rattle.vc_types.specs.Video.{dimensions_fit};

/// The planes of a picture have the sizes of its shape, and samples that fit a byte where its
/// depths do.
#[tactic(auto, using(crate::proofs::BuiltShapes::own_shape))]
pub fn planes_have_their_shape()
    ensures { (p : Parameters) (slices : List Coefficients) → IsTrue (shape_fits p.shape)
        → HaveShape p.shape (planes_of p slices) }
{}

/// Fields of a sequence's shape are low enough to be woven, and the samples of the frame fit a
/// byte where theirs do.
pub fn fields_can_be_woven()
    ensures heights { (s : Sequence) (planes : Planes)
        → IsTrue (dimensions_fit s.width s.height s.sampling s.fields) → s.fields ≡ true
        → HaveShape (picture_shape s) planes → HaveHeightsUpTo 4096 planes }
    ensures samples { (top_first : Bool) (a b : Planes) → HaveByteSamples a → HaveByteSamples b
        → HaveByteSamples (woven top_first a b) }
{}
