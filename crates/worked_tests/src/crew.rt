//! Slices that workers decode in threads of their own.

ghost use Rattle.std.specs.Prelude.{◌≡◌, ◌<◌, IfOk};

use crate::jobs::{edged_run, is_edged_run};
use slice_pool::{Crew, Worker};
use std::alloc::Global;
use std::sync::{Arc, Wait};
use std::test::Fail;
use std::thread;
use std::thread::Threads;
use vc_ports::NoGate;
use vc_slice::{Hands, Places, RunDone};
use worked_common::Doorkeeper;

// How often a test asks before it fails. Each turn yields the processor.
const TURNS: u64 = 10_000_000;

fn offer<P: Places>(alloc: Global, places: &mut P, index: u32) -> Result<u32, Fail>
    ensures bound { P.bound places.new ≡ P.bound places.old }
    ensures place { IfOk result (λ place. place < P.bound places.new) }
{
    match places.put(edged_run(alloc, 7, index, 1)?) {
        Ok(place) => Ok(place),
        Err(_) => Err(Fail::from("the slice has no place")),
    }
}

fn wait_for<P: Places>(places: &mut P, place: u32) -> Option<RunDone>
    requires { place < P.bound places.old }
    ensures bound { P.bound places.new ≡ P.bound places.old }
{
    for _turn in 0..TURNS {
        if let Some(done) = places.take(place) {
            return Some(done);
        }
        thread::yield_now();
    }
    None
}

// Whether the slice comes back decoded.
fn is_decoded<P: Places>(places: &mut P, place: u32, index: u32) -> bool
    requires { place < P.bound places.old }
    ensures bound { P.bound places.new ≡ P.bound places.old }
{
    match wait_for(places, place) {
        Some(done) => done.job.first == index && is_edged_run(&done),
        None => false,
    }
}

fn are_three_decoded<P: Places>(alloc: Global, places: &mut P) -> Result<bool, Fail> {
    let first = offer(alloc, places, 0)?;
    let second = offer(alloc, places, 1)?;
    let third = offer(alloc, places, 2)?;
    Ok(
        is_decoded(places, second, 1)
            && is_decoded(places, first, 0)
            && is_decoded(places, third, 2),
    )
}

// Whether a slice that is put after so many turns, each of which yields the processor, is decoded.
fn is_decoded_after<P: Places>(alloc: Global, places: &mut P, turns: u32) -> Result<bool, Fail> {
    for _turn in 0..turns {
        thread::yield_now();
    }
    let place = offer(alloc, places, 1)?;
    Ok(is_decoded(places, place, 1))
}

// After a long pause the workers sleep, and after a short one they are about to.
const PAUSES: [u32; 6] = [0, 1, 10, 100, 10_000, 0];

// Whether slices are decoded that are put one after another, with these pauses before them.
fn are_decoded_after<P: Places>(
    alloc: Global,
    places: &mut P,
    pauses: &[u32],
) -> Result<bool, Fail> {
    for turns in pauses {
        if !is_decoded_after(alloc, places, *turns)? {
            return Ok(false);
        }
    }
    Ok(true)
}

// Whether a crew of so many workers decodes all; one without any hands each slice back.
fn do_decode<P: Hands>(
    alloc: Global,
    hands: &mut P,
    workers: u32,
    pauses: &[u32],
) -> Result<bool, Fail>
    requires { P.is_free hands.old }
{
    hands.start_workers(workers)?;
    if workers == 0 {
        let back = hands.put(edged_run(alloc, 7, 1, 1)?);
        return Ok(back.is_err_and(|load| load.job.first == 1));
    }
    Ok(are_three_decoded(alloc, hands)? && are_decoded_after(alloc, hands, pauses)?)
}

fn does_crew_decode<H: Threads + Wait + Copy + Send + Sync + 'static>(
    rt: H,
    alloc: Global,
    workers: u32,
    pauses: &[u32],
) -> Result<bool, Fail> {
    let gate = Arc::new(alloc, NoGate)?;
    let mut crew = Crew::new(rt, alloc, |worker: Worker| worker.start(rt, &gate));
    let decoded = do_decode(alloc, &mut crew, workers, pauses);
    crew.stop();
    decoded
}

#[test]
fn workers_decode_and_are_called_again(rt: HostRuntime) -> Result<(), Fail> {
    let rows: [(u32, &[u32]); 5] = [(0, &[]), (1, &PAUSES), (3, &PAUSES), (4, &[]), (64, &[])];
    for (workers, pauses) in rows {
        assert!(rt;
            does_crew_decode(rt, rt.alloc(), workers, pauses)?,
            "{workers} workers"
        );
    }
    Ok(())
}

// The second slice is put once a worker is held with the first, and the third once the other worker
// passed with the second; then the held worker goes on.
fn slices_past<P: Hands>(alloc: Global, hands: &mut P, door: &Doorkeeper) -> Result<bool, Fail>
    requires { P.is_free hands.old }
{
    hands.start_workers(2)?;
    let first = offer(alloc, hands, 0)?;
    let is_held = door.comes_to_hold(0);
    let second = offer(alloc, hands, 1)?;
    let is_past = door.comes_to_let_pass(1);
    let early = is_decoded(hands, second, 1);
    door.open();
    let third = offer(alloc, hands, 2)?;
    let late = is_decoded(hands, first, 0) && is_decoded(hands, third, 2);
    Ok(is_held && is_past && early && late)
}

#[test]
fn a_held_worker_holds_up_no_other(rt: HostRuntime) -> Result<(), Fail> {
    let alloc = rt.alloc();
    let door = Arc::new(alloc, Doorkeeper::new())?;
    let mut crew = Crew::new(rt, alloc, |worker: Worker| worker.start(rt, &door));
    let passed = slices_past(alloc, &mut crew, &door);
    crew.stop();
    assert!(rt; passed?);
    Ok(())
}
