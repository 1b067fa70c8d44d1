ghost use Rattle.std.specs.Prelude.{◌≡◌, ◌+◌, ◌*◌, ◌≤◌, IsErr, IfOk, IsTrue, MatchResult, Some, None, ◌↔◌};
ghost use Rattle.std.specs.Prelude.{List, [], take, slice_index_or};
ghost use Rattle.vc_types.specs.Limits.{matrix_fits};
ghost use Rattle.vc_types.specs.Quantisation.{default_matrix, default_rows, haar_entries, filled_matrix};

/// There is no default matrix at depth 5.
#[derive(Clone, Copy, Debug, PartialEq, Eq)]
pub struct NoDefault;

/// The default quantisation matrix of a wavelet from 0 to 6 at a depth from 1 to 5: LL, then HL, LH and HH of
/// each level from the lowest on, and 0 behind the last (ST 2042-1, quantisation matrices). There is none
/// exactly at depth 5.
pub fn default_matrix(wavelet: u8, depth: u8) -> Result<[u8; 16], NoDefault>
    requires wavelet { wavelet ≤ 6 }
    requires levels { (1 ≤ depth) × (depth ≤ 5) }
    ensures value { MatchResult result (λ m. default_matrix wavelet depth ≡ Some m)
        (λ e. default_matrix wavelet depth ≡ None) }
    ensures no_default_exactly { IsErr result ↔ (depth ≡ 5) }
    ensures fits { IfOk result (λ m. IsTrue (matrix_fits m)) }
{
    if depth == 5 {
        return Err(NoDefault);
    }
    Ok(cut(&row(wavelet, depth), depth))
}

// LL and four levels, of which the first are used at a depth.
fn row(wavelet: u8, depth: u8) -> [u8; 13]
    requires wavelet { wavelet ≤ 6 }
    requires levels { (1 ≤ depth) × (depth ≤ 4) }
    ensures value { take (1 + 3 * depth) result
        ≡ take (1 + 3 * depth) (slice_index_or (default_rows depth) wavelet []) }
    ensures fits { IsTrue (matrix_fits result) }
{
    match wavelet {
        0 | 2 => [5, 3, 3, 0, 4, 4, 1, 5, 5, 2, 6, 6, 3],
        1 => [4, 2, 2, 0, 4, 4, 2, 5, 5, 3, 7, 7, 5],
        3 => haar_row(depth),
        4 => [8, 4, 4, 0, 4, 4, 0, 4, 4, 0, 4, 4, 0],
        5 => [0, 4, 4, 8, 8, 8, 12, 13, 13, 17, 17, 17, 21],
        _ => [3, 1, 1, 0, 4, 4, 2, 6, 6, 5, 9, 9, 7],
    }
}

// The Haar wavelet without a shift: each level that follows adds 4.
fn haar_row(depth: u8) -> [u8; 13]
    requires levels { (1 ≤ depth) × (depth ≤ 4) }
    ensures value { take (1 + 3 * depth) result ≡ take (1 + 3 * depth) (haar_entries depth) }
    ensures fits { IsTrue (matrix_fits result) }
{
    match depth {
        1 => [8, 4, 4, 0, 0, 0, 0, 0, 0, 0, 0, 0, 0],
        2 => [12, 8, 8, 4, 4, 4, 0, 0, 0, 0, 0, 0, 0],
        3 => [16, 12, 12, 8, 8, 8, 4, 4, 4, 0, 0, 0, 0],
        _ => [20, 16, 16, 12, 12, 12, 8, 8, 8, 4, 4, 4, 0],
    }
}

// The entries that are used at a depth, and 0 behind them.
fn cut(row: &[u8; 13], depth: u8) -> [u8; 16]
    requires levels { depth ≤ 4 }
    ensures value { result ≡ filled_matrix (take (1 + 3 * depth) row.now) }
    ensures fits { IsTrue (matrix_fits row.now) → IsTrue (matrix_fits result) }
{
    let used = 1 + 3 * usize::from(depth);
    let mut matrix = [0; 16];
    matrix[..used].copy_from_slice(&row[..used]);
    matrix
}
