ghost use Rattle.std.specs.Prelude.{◌≡◌, ◌%◌, ℕ, ℤ};
ghost use Rattle.vc_types.specs.Wavelets.{synthesised, analysed, GrowsAtMost, IsLocal};

/// Synthesis undoes analysis on every line.
pub fn synthesis_undoes_analysis(wavelet: u8)
    ensures { (size : ℕ) (x : ℕ → ℤ) → size % 2 ≡ 0
        → synthesised wavelet size (analysed wavelet size x) ≡ x }
{}

/// Neither raises a magnitude past 16 times a bound of at least 2 ^ 16.
pub fn lines_grow_little(wavelet: u8)
    ensures synthesis { GrowsAtMost 16 (synthesised wavelet) }
    ensures analysis { GrowsAtMost 16 (analysed wavelet) }
{}

/// Each reads its own line alone.
pub fn lines_stand_alone(wavelet: u8)
    ensures synthesis { IsLocal (synthesised wavelet) }
    ensures analysis { IsLocal (analysed wavelet) }
{}
