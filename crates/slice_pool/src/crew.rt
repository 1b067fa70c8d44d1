ghost use Rattle.std.specs.Prelude.{◌≡◌};

use crate::team::{Post, Stage, Team};
use crate::worker::Worker;
use claim_board::wake;
use std::alloc::Global;
use std::sync::atomic::Ordering;
use std::thread::{JoinHandle, Threads};

/// Workers for slices, numbered from 0. It can't be dropped: it ends in `stop`.
pub struct Crew<H, F> {
    pub(crate) rt: H,
    pub(crate) alloc: Global,
    // Starts a worker.
    pub(crate) start: F,
    pub(crate) stage: Stage,
}

impl<H: Threads + Copy, F: Fn(Worker) -> Option<JoinHandle<()>> + Drop> Crew<H, F> {
    ghost use Rattle.slice_pool.specs.Crews.{crew_at, NotStarted};

    /// A crew that no worker was started for. Each worker will be started by `start`.
    pub fn new(rt: H, alloc: Global, start: F) -> Crew<H, F>
        requires callable { F.IsAlwaysCallable start }
        ensures free { (crew_at result ≡ NotStarted) × F.IsAlwaysCallable result.start }
    {
        Crew {
            rt,
            alloc,
            start,
            stage: Stage::Free,
        }
    }

    /// Ends all workers, and waits until they have ended. Each ends the slice at hand first.
    pub fn stop(self) {
        let Crew {
            rt,
            alloc: _,
            start: _,
            stage,
        } = self;
        match stage {
            Stage::Free | Stage::Alone => {}
            Stage::Working(team) => dismiss(&rt, team),
        }
    }
}

/// Ends all workers of a team, and waits until they have ended.
pub(crate) fn dismiss<H: Threads>(rt: &H, team: Team) {
    let Team {
        form: _,
        post,
        mut handles,
    } = team;
    let Post {
        board,
        mut bells,
        is_over,
    } = post;
    is_over.store(true, Ordering::SeqCst);
    for _worker in 0..handles.len() {
        wake(&board, &mut bells);
    }
    while let Some(handle) = handles.pop() {
        handle.join(rt);
    }
}
