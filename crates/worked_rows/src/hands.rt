use crate::bench::{Ran, run_alone, run_with};
use crate::numbers::Number;
use crate::setup::Setup;
use slice_pool::{Crew, Worker};
use std::alloc::Global;
use std::sync::{Arc, Wait};
use std::thread::Threads;
use vc_ports::NoGate;
use worked_common::{AtOnce, Bad, Given, NoWorkers, TwoPlaces};

/// Who decodes slices.
#[derive(Drop, Clone, Copy)]
pub(crate) enum Kind {
    NoHands,
    Crew,
    AtOnce,
    /// Those that no worker can be started for.
    NoWorkers,
    /// Those that give other answers than they were asked for.
    Wrong(Given),
}

impl Kind {
    pub(crate) fn parse(text: &str) -> Result<Kind, Bad> {
        match text {
            "none" => Ok(Kind::NoHands),
            "crew" => Ok(Kind::Crew),
            "at-once" => Ok(Kind::AtOnce),
            "no-workers" => Ok(Kind::NoWorkers),
            "next-picture" => Ok(Kind::Wrong(Given::OfNextPicture)),
            "another-plan" => Ok(Kind::Wrong(Given::OfAnotherPlan)),
            "other-bytes" => Ok(Kind::Wrong(Given::OfOtherBytes)),
            "first-run" => Ok(Kind::Wrong(Given::OfFirstRun)),
            "cut-short" => Ok(Kind::Wrong(Given::CutShort)),
            "opposite-order" => Ok(Kind::Wrong(Given::InOppositeOrder)),
            _ => Err(Bad::NoRow),
        }
    }
}

/// Runs the program on a setup, at a number, with the hands that it asks for.
pub(crate) fn run<H: Threads + Wait + Copy + Send + Sync + 'static>(
    rt: H,
    alloc: Global,
    setup: &Setup,
    number: Number,
) -> Result<Ran, Bad> {
    match setup.hands {
        Kind::NoHands => run_alone(rt, alloc, setup, number),
        Kind::AtOnce => run_with(rt, alloc, setup, number, &mut AtOnce::new(alloc)),
        Kind::NoWorkers => run_with(rt, alloc, setup, number, &mut NoWorkers),
        Kind::Crew => run_with_crew(rt, alloc, setup, number),
        Kind::Wrong(given) => {
            let mut places = TwoPlaces::new(alloc, given);
            let mut ran = run_with(rt, alloc, setup, number, &mut places)?;
            ran.gave_back = places.gave_all();
            Ok(ran)
        }
    }
}

fn run_with_crew<H: Threads + Wait + Copy + Send + Sync + 'static>(
    rt: H,
    alloc: Global,
    setup: &Setup,
    number: Number,
) -> Result<Ran, Bad> {
    let gate = Arc::new(alloc, NoGate)?;
    let mut crew = Crew::new(rt, alloc, |worker: Worker| worker.start(rt, &gate));
    let ran = run_with(rt, alloc, setup, number, &mut crew);
    crew.stop();
    ran
}
