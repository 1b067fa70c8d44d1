ghost use Rattle.std.specs.Prelude.{◌≡◌, ◌<◌, ◌≤◌, ◌+◌, ◌^◌, IfOk, IsOk, OnOk, OnErr, All, vec_len};
ghost use Rattle.std.specs.Prelude.{vec_capacity};
ghost use Rattle.std.specs.Arc.{arc_value};
ghost use Rattle.claim_board.specs.Calls.{IsNewWorker};
ghost use Rattle.slice_pool.specs.Crews.{NotStarted, WithoutWorkers, IsAtWork, IsNewForm, bound_at};
ghost use Rattle.slice_pool.specs.Crews.{crew_at};

use crate::crew::Crew;
use crate::team::{Post, Stage, Team};
use crate::worker::Worker;
use claim_board::{Board, BoardFeeder, WorkerSeat};
use std::alloc::Global;
use std::mem;
use std::sync::Arc;
use std::sync::atomic::AtomicBool;
use std::thread::JoinHandle;
use vc_slice::Hands;
use vc_types::NoMemory;

// How many places a crew has for slices.
const PLACES: u32 = 256;

impl<H, F: Fn(Worker) -> Option<JoinHandle<()>>> Hands for Crew<H, F> {
    ghost is_free = { λ c. (crew_at c ≡ NotStarted) × F.IsAlwaysCallable c.start };

    fn start_workers(&mut self, workers: u32) -> Result<(), NoMemory>
        requires free { crew_at self.old ≡ NotStarted }
        requires callable { F.IsAlwaysCallable self.old.start }
        ensures none { workers ≡ 0
            → IsOk result × (crew_at self.new ≡ WithoutWorkers) }
        ensures some { 0 < workers → OnOk result (IsAtWork 256 (crew_at self.new)) }
        ensures unchanged { OnErr result ((crew_at self.new ≡ NotStarted)
            × (bound_at (crew_at self.new) ≡ bound_at (crew_at self.old))
            × F.IsAlwaysCallable self.new.start) }
    {
        let stage = if workers == 0 {
            Stage::Alone
        } else {
            Stage::Working(team_of(self.alloc, PLACES, workers, &self.start)?)
        };
        match mem::replace(&mut self.stage, stage) {
            Stage::Free => Ok(()),
            Stage::Alone => unreachable!(),
            Stage::Working(_team) => unreachable!(),
        }
    }
}

/// So many workers at a new board of so many places. All memory is taken before the first of them
/// starts.
pub(crate) fn team_of<F: Fn(Worker) -> Option<JoinHandle<()>>>(
    alloc: Global,
    places: u32,
    workers: u32,
    start: &F,
) -> Result<Team, NoMemory>
    requires some_place { 0 < places }
    requires callable { F.IsAlwaysCallable start.now }
    ensures form { IfOk result (λ team. IsNewForm places team.form) }
{
    let (board, feeder, seats, bells) = Board::new(alloc, places, workers)?;
    let board = Arc::new(alloc, board)?;
    let form = BoardFeeder::new(alloc, Arc::try_clone(&board)?, feeder)?;
    let is_over = Arc::new(alloc, AtomicBool::new(false))?;
    let mut handles = Vec::with_capacity(alloc, workers as usize)?;
    let post = Post {
        board,
        bells,
        is_over,
    };
    start_all(alloc, &post, seats, start, &mut handles);
    Ok(Team {
        form,
        post,
        handles,
    })
}

// Starts a worker for each seat, numbered from 0. One that can't start is left out.
fn start_all<F: Fn(Worker) -> Option<JoinHandle<()>>>(
    alloc: Global,
    post: &Post,
    mut seats: Vec<WorkerSeat>,
    start: &F,
    handles: &mut Vec<JoinHandle<()>>,
)
    requires callable { F.IsAlwaysCallable start.now }
    requires seats { All (IsNewWorker (arc_value post.now.board)) seats.items }
    requires few { vec_len seats < 2 ^ 32 }
    requires reserved { vec_len handles.old + vec_len seats ≤ vec_capacity handles.old }
{
    let workers = seats.len() as u32;
    for number in 0..workers {
        let Some(seat) = seats.pop() else {
            return;
        };
        let Ok(worker) = worker_of(alloc, post, seat, number) else {
            continue;
        };
        if let Some(handle) = start(worker) {
            handles.push_reserved(handle);
        }
    }
}

fn worker_of(alloc: Global, post: &Post, seat: WorkerSeat, number: u32) -> Result<Worker, NoMemory>
    requires seat { IsNewWorker (arc_value post.now.board) seat }
{
    Ok(Worker {
        alloc,
        number,
        seat,
        board: Arc::try_clone(&post.board)?,
        is_over: Arc::try_clone(&post.is_over)?,
    })
}
