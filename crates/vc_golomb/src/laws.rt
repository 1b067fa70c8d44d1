ghost use Rattle.std.specs.Prelude.{◌≡◌, ◌≤◌, ◌++◌, ℕ, ℤ, List, Bool, Ok, drop, length};
ghost use Rattle.vc_types.specs.Codes.{uint_bits, sint_bits};
ghost use Rattle.vc_types.specs.Bounded.{BeginsWith, bounded_sint};
ghost use Rattle.vc_types.specs.Fields.{number_up_to};
ghost use Rattle.vc_golomb.specs.declared.uint.UintRefusal.{UintRefusal};

/// No code of a number begins that of another.
#[tactic(auto, using(crate::proofs::CodeLaws::apart))]
pub fn no_code_begins_another()
    ensures unsigned { (v w : ℕ) (rest : List Bool) → uint_bits w ≡ uint_bits v ++ rest → v ≡ w }
    ensures signed { (v w : ℤ) (rest : List Bool) → sint_bits w ≡ sint_bits v ++ rest → v ≡ w }
{}

/// A number that is written is read back, whatever follows it. In a block, any bits that begin with its code
/// will do.
#[tactic(auto, using(crate::proofs::CodeLaws::back))]
pub fn what_is_written_is_read()
    ensures unsigned { (v max : ℕ) (rest : List Bool) → v ≤ max
        → number_up_to UintRefusal.End UintRefusal.TooLarge max (uint_bits v ++ rest)
        ≡ Ok (v, rest) }
    ensures signed { (v : ℤ) (rest : List Bool) → bounded_sint (sint_bits v ++ rest) ≡ (v, rest) }
    ensures bounded { (v : ℤ) (bits : List Bool) → BeginsWith bits (sint_bits v)
        → bounded_sint bits ≡ (v, drop (length (sint_bits v)) bits) }
{}
