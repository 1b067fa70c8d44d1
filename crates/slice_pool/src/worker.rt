ghost use Rattle.std.specs.Prelude.{◌<◌};
ghost use Rattle.std.specs.Arc.{arc_value};
ghost use Rattle.claim_board.specs.Seats.{IsWorkerOf, place_count};

use crate::work::work;
use claim_board::{Board, WorkerSeat};
use std::alloc::Global;
use std::sync::atomic::AtomicBool;
use std::sync::{Arc, Wait};
use std::thread;
use std::thread::{JoinHandle, Threads};
use vc_ports::Gate;

/// A worker that is to start: its number, its seat, and a share of the board.
#[derive(Drop)]
pub struct Worker {
    pub(crate) alloc: Global,
    pub(crate) number: u32,
    pub(crate) seat: WorkerSeat,
    pub(crate) board: Arc<Board>,
    // Set once the workers are to end.
    pub(crate) is_over: Arc<AtomicBool>,
    ghost some_place: { 0 < place_count (arc_value board) },
    ghost of_board: { IsWorkerOf (arc_value board) seat },
}

impl Worker {
    /// Starts in a thread of its own, if one can be had. It passes the gate before it decodes a
    /// slice.
    pub fn start<H: Threads + Wait + Copy + Send + Sync + 'static, G: Gate + Send + Sync + 'static>(
        self,
        rt: H,
        gate: &Arc<G>,
    ) -> Option<JoinHandle<()>> {
        let gate = Arc::try_clone(gate).ok()?;
        thread::spawn(&rt, move || work(rt, &*gate, self)).ok()
    }
}
