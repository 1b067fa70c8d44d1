ghost use Rattle.claim_board.specs.Views.{first_view, with_seat, worker_view};
ghost use Rattle.claim_board.specs.Rule.{BoardRule};
ghost use Rattle.claim_board.specs.Plays.{tells_load, tells_put, tells_claim, tells_complete};
ghost use Rattle.claim_board.specs.Plays.{tells_back, tells_fetch};

use crate::cargo::Cargo;
use crate::view::View;
use atomic_table::{Play, Split, TableRule};

/// The rule of the board's table.
pub(crate) struct Rounds;

impl TableRule<Option<Cargo>, View, usize> for Rounds {
    ghost holds = { λ _. BoardRule };

    ghost first = { first_view };
}

pub(crate) struct Load;

impl Play<Option<Cargo>, View> for Load {
    ghost then = { tells_load };
}

pub(crate) struct Put;

impl Play<Option<Cargo>, View> for Put {
    ghost then = { tells_put };
}

pub(crate) struct Claim;

impl Play<Option<Cargo>, View> for Claim {
    ghost then = { tells_claim };
}

pub(crate) struct Complete;

impl Play<Option<Cargo>, View> for Complete {
    ghost then = { tells_complete };
}

pub(crate) struct TakeBack;

impl Play<Option<Cargo>, View> for TakeBack {
    ghost then = { tells_back };
}

pub(crate) struct Fetch;

impl Play<Option<Cargo>, View> for Fetch {
    ghost then = { tells_fetch };
}

/// Makes a worker's seat.
pub(crate) struct Hire;

impl Split<View> for Hire {
    ghost left = { with_seat };

    ghost right = { worker_view };
}
