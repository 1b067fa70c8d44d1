ghost use Rattle.std.specs.Prelude.{◌≡◌, ◌*◌, ◌%◌, ◌^◌, ◌<◌, ◌≤◌, length, unsigned_abs, All};
ghost use Rattle.vc_types.specs.Lifting.{line_of};
ghost use Rattle.vc_types.specs.Wavelets.{synthesised, analysed};

use crate::columns::{Columns, run};
use crate::order::{analysis, synthesis};

/// Synthesises a line of an even number of samples (ST 2042-1, one-dimensional synthesis). Samples have
/// magnitudes below 2 ^ 108.
pub fn synth(wavelet: u8, line: &mut [i128])
    requires wavelet { wavelet ≤ 6 }
    requires even { length line.old % 2 ≡ 0 }
    requires some { 2 ≤ length line.old }
    requires small { All (λ z. unsigned_abs z < 2 ^ 108) line.old }
    ensures value { line_of line.new ≡ synthesised wavelet (length line.old) (line_of line.old) }
{
    let half = line.len() / 2;
    run(line, Columns { width: 1, half }, &synthesis(wavelet))
}

/// Analyses a line of an even number of samples. Samples have magnitudes below 2 ^ 108.
pub fn analyse(wavelet: u8, line: &mut [i128])
    requires wavelet { wavelet ≤ 6 }
    requires even { length line.old % 2 ≡ 0 }
    requires some { 2 ≤ length line.old }
    requires small { All (λ z. unsigned_abs z < 2 ^ 108) line.old }
    ensures value { line_of line.new ≡ analysed wavelet (length line.old) (line_of line.old) }
{
    let half = line.len() / 2;
    run(line, Columns { width: 1, half }, &analysis(wavelet))
}
