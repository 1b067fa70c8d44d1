ghost use Rattle.std.specs.Prelude.{◌≡◌, ◌+◌, ◌*◌, ◌^◌, ◌<◌, ◌≤◌, unsigned_abs, ◌-ℤ◌, ℤ};
ghost use Rattle.vc_types.specs.Quantisation.{quant_factor, dequantised, quantised};

/// A coefficient that is quantised and dequantised differs by at most a quarter of the factor, and one; at
/// index 0 it is itself.
pub fn quantisation_is_near(q: u8)
    ensures near { (c : ℤ)
        → 4 * unsigned_abs (dequantised (quantised c q) q -ℤ c) ≤ quant_factor q + 4 }
    ensures exact { q ≡ 0 → (c : ℤ) → dequantised (quantised c q) q ≡ c }
{}

/// No number stands for a coefficient of smaller magnitude than its own.
pub fn dequantising_never_shrinks(q: u8)
    ensures { (m : ℤ) → unsigned_abs m ≤ unsigned_abs (dequantised m q) }
{}
