ghost use Rattle.std.specs.Prelude.{◌≡◌, ◌↔◌, ◌≤◌, ℕ, true};
ghost use Rattle.std.specs.Int.{IsGcd};
ghost use Rattle.vc_types.specs.Ratios.{greatest_divisor};
ghost use Rattle.vc_types.specs.SameValues.{same_sequence, same_parameters};
ghost use Rattle.vc_types.specs.SequenceHeader.{Sequence};
ghost use Rattle.vc_types.specs.TransformParameters.{Parameters};
ghost use Rattle.vc_types.specs.Video.{video_depth, IsLeastDepth};

/// Sequence headers are compared field by field, which is to say that the values are equal.
#[tactic(auto, using(crate::proofs::SameValues::sequences_exactly))]
pub fn headers_of_one_value_are_equal()
    ensures { (a b : Sequence) → (same_sequence a b ≡ true) ↔ (a ≡ b) }
{}

/// So are transform parameters.
#[tactic(auto, using(crate::proofs::SameValues::parameters_exactly))]
pub fn parameters_of_one_value_are_equal()
    ensures { (a b : Parameters) → (same_parameters a b ≡ true) ↔ (a ≡ b) }
{}

/// The samples of an excursion have as few bits as are enough for it.
pub fn video_depths_are_least()
    ensures { (excursion : ℕ) → excursion ≤ 65535 → IsLeastDepth excursion (video_depth excursion) }
{}

/// Ratios are brought to lowest terms by the greatest common divisor.
pub fn greatest_divisors_are_common()
    ensures { (a b : ℕ) → IsGcd a b (greatest_divisor a b) }
{}
