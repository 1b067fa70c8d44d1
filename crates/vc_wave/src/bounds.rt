ghost use Rattle.std.specs.Prelude.{◌≡◌, ◌^◌, ◌<◌, ◌≤◌, IfSome};
ghost use Rattle.vc_wave.specs.NarrowBounds.{shifted_bound, rows_bound, AreWithin, CarriesTo};

use crate::shift::is_shifted;
use vc_lift::narrow_bound;

// A bound on all cells, from one before and one on the samples that were synthesised and are to be shifted.
fn shifted_bound(wavelet: u8, most: u64, made: u64) -> Option<u64>
    requires wavelet { wavelet ≤ 6 }
    requires most { most < 2 ^ 31 }
    requires made { made < 2 ^ 31 }
    ensures value { result ≡ shifted_bound wavelet most made }
    ensures small { IfSome result (λ bound. bound < 2 ^ 31) }
{
    if !is_shifted(wavelet) {
        Some(most.max(made))
    } else if made + 1 < 1 << 31 {
        Some(most.max((made + 1) / 2))
    } else {
        None
    }
}

/// A bound on all cells after rows are synthesised and shifted in 32 bits, from one before it.
pub(crate) fn rows_bound(wavelet: u8, most: u64) -> Option<u64>
    requires wavelet { wavelet ≤ 6 }
    requires most { most < 2 ^ 31 }
    ensures value { result ≡ rows_bound wavelet most }
    ensures small { IfSome result (λ bound. bound < 2 ^ 31) }
{
    let made = narrow_bound(wavelet, most)?;
    shifted_bound(wavelet, most, made)
}

/// The same. Where that is too high, the greatest magnitude among the cells takes its place; where that is
/// too high, there is none.
pub(crate) fn rows_reach(wavelet: u8, cells: &[i32], most: u64) -> Option<u64>
    requires wavelet { wavelet ≤ 6 }
    requires most { most < 2 ^ 31 }
    requires within { AreWithin most cells.now }
    ensures value { IfSome result (λ after. CarriesTo (rows_bound wavelet) cells.now after) }
    ensures small { IfSome result (λ after. after < 2 ^ 31) }
{
    let after = rows_bound(wavelet, most);
    if after.is_some() {
        return after;
    }
    rows_bound(wavelet, most.min(u64::from(greatest(cells))))
}

/// The greatest magnitude among cells.
pub(crate) fn greatest(cells: &[i32]) -> u32
    ensures { AreWithin result cells.now }
{
    let mut most = 0u32;
    for cell in cells {
        most = most.max(cell.unsigned_abs());
    }
    most
}
