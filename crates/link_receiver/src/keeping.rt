ghost use Rattle.std.specs.Prelude.{◌≡◌, ◌<◌, ◌-◌, ◌^◌, ℕ, List, [], IfOk, Some, None};
ghost use Rattle.std.specs.Option.{option_map};
ghost use Rattle.receiver_model.specs.Entering.{greatest_in};
ghost use Rattle.receiver_model.specs.Judging.{is_over};
ghost use Rattle.link_receiver.specs.Keeping.{DatagramIsKept};
ghost use Rattle.link_receiver.specs.States.{IsRunning};
ghost use Rattle.link_window.specs.Hearing.{IsHeard, OpensSession, BringsFragment, EndsSession};
ghost use Rattle.link_window.specs.Hearing.{ChangesNothing};

use crate::kept::Kept;
use link_window::{Fragment, Heard, Opening, Outcome, Standing};
use std::alloc::Global;
use vc_types::NoMemory;

/// The session that stands keeps of a datagram what it brings.
pub(crate) fn keep_heard(
    alloc: Global,
    standing: &mut Option<Standing>,
    heard: Heard,
) -> Result<Kept, NoMemory>
    requires heard { (datagram : List ℕ) × IsHeard standing.old datagram heard }
    requires running { IsRunning standing.old }
    ensures { (datagram : List ℕ) → IsHeard standing.old datagram heard
        → IfOk result (DatagramIsKept standing.old standing.new datagram) }
{
    match heard {
        Heard::Opens(opening) => Ok(close_for(alloc, standing, opening)),
        Heard::Brings(fragment) => bring(standing, fragment),
        Heard::Ends => Ok(end(alloc, standing)),
        Heard::Nothing(outcome) => Ok(Kept {
            outcome,
            jobs: Vec::new(alloc),
            opening: None,
        }),
    }
}

// The pictures of the session that stands are closed, since another is opened.
fn close_for(alloc: Global, standing: &mut Option<Standing>, opening: Opening) -> Kept
    ensures { (datagram : List ℕ) → OpensSession standing.old datagram opening
        → DatagramIsKept standing.old standing.new datagram result }
{
    close(standing);
    Kept {
        outcome: Outcome::HeaderNew,
        jobs: Vec::new(alloc),
        opening: Some(opening),
    }
}

/// All pictures of the session that stands are closed.
pub(crate) fn close(standing: &mut Option<Standing>)
    ensures { standing.new ≡ option_map is_over standing.old }
{
    if let Some(standing) = standing {
        standing.finish();
    }
}

fn bring(standing: &mut Option<Standing>, fragment: Fragment) -> Result<Kept, NoMemory>
    requires heard { (datagram : List ℕ) × BringsFragment standing.old datagram fragment }
    requires running { IsRunning standing.old }
    ensures { (datagram : List ℕ) → BringsFragment standing.old datagram fragment
        → IfOk result (DatagramIsKept standing.old standing.new datagram) }
{
    let Some(standing) = standing else {
        unreachable!()
    };
    let entered = standing.enter(fragment)?;
    Ok(Kept {
        outcome: entered.outcome,
        jobs: entered.jobs,
        opening: None,
    })
}

fn end(alloc: Global, standing: &mut Option<Standing>) -> Kept
    requires { IsRunning standing.old }
    ensures { (datagram : List ℕ) → EndsSession standing.old datagram
        → DatagramIsKept standing.old standing.new datagram result }
{
    if let Some(standing) = standing {
        standing.end();
    }
    Kept {
        outcome: Outcome::End,
        jobs: Vec::new(alloc),
        opening: None,
    }
}

/// The greatest number of a picture so far.
pub(crate) fn greatest(standing: &Option<Standing>) -> u64
    ensures value { result ≡ greatest_in standing.now }
    ensures fits { result < 2 ^ 64 - 16 }
{
    match standing {
        Some(standing) => standing.greatest(),
        None => 0,
    }
}
