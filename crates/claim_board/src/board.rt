ghost use Rattle.std.specs.Prelude.{◌≡◌, ◌<◌, ◌^◌};

use crate::cargo::Cargo;
use crate::plays::Rounds;
use crate::ring::Bell;
use crate::view::View;
use atomic_table::Table;
use std::alloc::Global;

/// Places with a word and a slot each. A word is four times the serial of the place, which each put
/// raises, and the state: 0 empty, 1 waiting, 2 held, 3 done.
#[derive(Drop)]
pub struct Board {
    pub(crate) table: Table<Option<Cargo>, View, usize, Rounds, Global>,
    pub(crate) bell: Bell,
    ghost sized: { table.shared.table_id.words ≡ table.shared.table_id.slots },
    ghost few: { table.shared.table_id.words < 2 ^ 32 },
}
