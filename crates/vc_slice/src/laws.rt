ghost use Rattle.std.specs.Prelude.{◌≡◌, ℕ, ◌<◌, List, ◌++◌, map, Some, None, Result, Ok, Err};
ghost use Rattle.std.specs.List.{range_with_len};
ghost use Rattle.vc_types.specs.declared.refusal.Unsound.{Unsound};
ghost use Rattle.vc_types.specs.Fields.{joined};
ghost use Rattle.vc_types.specs.PictureBytes.{ArePictureBytes, AreAnswers};
ghost use Rattle.vc_types.specs.Pictures.{decoded_picture};
ghost use Rattle.vc_types.specs.SequenceHeader.{Sequence};
ghost use Rattle.vc_types.specs.Slices.{Coefficients};
ghost use Rattle.vc_types.specs.Subbands.{slice_count};
ghost use Rattle.vc_types.specs.TransformParameters.{Parameters};

/// A picture's slices can be decoded independently, in any order. If its coded transform parameters are
/// followed by the right number of whole slices (and then by anything), the picture is put together from the
/// results for the slices: if all are sound, it is these parameters and the slices' coefficients in raster
/// order; if one isn't, there is no picture.
pub fn slices_decode_apart()
    ensures sound { (s : Sequence) (p : Parameters) (coded : List ℕ) (slices : List (List ℕ))
        (behind : List ℕ) (answer : ℕ → Result Coefficients Unsound)
        (coefficients : ℕ → Coefficients)
        → ArePictureBytes s p coded slices → AreAnswers p slices answer
        → ((i : ℕ) → i < slice_count p → answer i ≡ Ok (coefficients i))
        → decoded_picture s (coded ++ (joined slices ++ behind)) ≡ Some (record {
          parameters = p;
          slices = map coefficients (range_with_len 0 (slice_count p));
        }) }
    ensures unsound { (s : Sequence) (p : Parameters) (coded : List ℕ) (slices : List (List ℕ))
        (behind : List ℕ) (answer : ℕ → Result Coefficients Unsound) (i : ℕ) (why : Unsound)
        → ArePictureBytes s p coded slices → AreAnswers p slices answer
        → i < slice_count p → answer i ≡ Err why
        → decoded_picture s (coded ++ (joined slices ++ behind)) ≡ None }
{}
