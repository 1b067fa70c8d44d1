ghost use Rattle.std.specs.Prelude.{◌≡◌, ◌+◌, ◌-◌, ◌/◌, ◌^◌, ◌<◌, ◌≤◌};
ghost use Rattle.vc_types.specs.Subbands.{share_start, rect};

use vc_types::Rect;

/// What a slice has of a side: from one cell to another.
#[derive(Clone, Copy)]
pub(crate) struct Span {
    pub(crate) side: u32,
    pub(crate) from: u32,
    pub(crate) to: u32,
    ghost ordered: { (from ≤ to) × (to ≤ side) × (side ≤ 8192) },
}

impl Span {
    /// Share k of n.
    pub(crate) fn new(side: u32, n: u32, k: u32) -> Span
        requires share { k < n }
        requires small { (side ≤ 8192) × (n ≤ 65535) }
        ensures side { result.side ≡ side }
        ensures from { result.from ≡ share_start side n k }
        ensures to { result.to ≡ share_start side n (k + 1) }
    {
        Span {
            side,
            from: start(side, n, k),
            to: start(side, n, k + 1),
        }
    }

    /// The same of a side that is halved so many times.
    #[inline(always)]
    pub(crate) fn halved(&self, times: u32) -> Span
        requires { times ≤ 5 }
        ensures side { result.side ≡ self.now.side / 2 ^ times }
        ensures from { result.from ≡ self.now.from / 2 ^ times }
        ensures to { result.to ≡ self.now.to / 2 ^ times }
        ensures within { result.side ≤ self.now.side }
        ensures half { 1 ≤ times → result.side + result.side ≤ self.now.side }
    {
        Span {
            side: self.side >> times,
            from: self.from >> times,
            to: self.to >> times,
        }
    }
}

// Where share k of n begins in a length.
fn start(length: u32, n: u32, k: u32) -> u32
    requires some { 0 < n }
    requires share { k ≤ n }
    requires small { (length ≤ 8192) × (n ≤ 65535) }
    ensures value { result ≡ share_start length n k }
    ensures within { result ≤ length }
{
    length * k / n
}

/// The columns and rows that a slice has of a subband, which stands at a corner.
#[inline(always)]
pub(crate) fn part(x: u32, y: u32, columns: &Span, rows: &Span) -> Rect
    requires range { (x + columns.now.side ≤ 8192) × (y + rows.now.side ≤ 8192) }
    ensures value { result ≡ rect (x + columns.now.from) (y + rows.now.from)
        (columns.now.to - columns.now.from) (rows.now.to - rows.now.from) }
{
    Rect {
        x: x + columns.from,
        y: y + rows.from,
        width: columns.to - columns.from,
        height: rows.to - rows.from,
    }
}
