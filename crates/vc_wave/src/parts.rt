ghost use Rattle.std.specs.Prelude.{◌*◌, ◌≤◌, length};

use crate::extents::Level;

/// A level's subbands, which are only read. The low one, which is what the levels below it made, stands row
/// by row in a list of its own; the others stand nested, in rows as far apart as the level says.
#[derive(Clone, Copy)]
pub(crate) struct Subbands<'a> {
    pub level: Level,
    pub low: &'a [i32],
    pub nested: &'a [i32],
    pub ghost below: { level.h * level.w ≤ length low.now },
    pub ghost across: { 2 * level.w ≤ level.pitch },
    pub ghost down: { 2 * level.h * level.pitch ≤ length nested.now },
}

/// Pairs of a level's rows that are made together, from one on and before another; and those that are
/// gathered for them, the first and how many.
#[derive(Clone, Copy)]
pub(crate) struct Band {
    pub from: usize,
    pub to: usize,
    pub first: usize,
    pub pairs: usize,
}

/// Pairs of a level's rows, a low and a high one each: from one on and before another.
#[derive(Clone, Copy)]
pub(crate) struct Pairs {
    pub from: usize,
    pub to: usize,
}

/// Rows that are put out: the first of them among those at hand, the row to which it goes, and how many there
/// are.
#[derive(Clone, Copy)]
pub(crate) struct Span {
    pub first: usize,
    pub at: usize,
    pub count: usize,
}
