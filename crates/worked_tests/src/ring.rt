//! A ring of places: what each call answers.

use crate::jobs::empty_slice;
use slice_ring::{CompleteRefusal, PlaceState, PutRefusal, Ring};
use std::alloc::Global;
use std::test::Fail;
use vc_slice::decode;
use vc_types::NoMemory;

// A call, with places, serials and pictures' numbers.
#[derive(Clone, Copy)]
enum Call {
    Put {
        number: u64,
    },
    Claim {
        worker: u32,
    },
    /// With the answer to the slice of this picture.
    Complete {
        place: u32,
        serial: u64,
        number: u64,
    },
    Take {
        place: u32,
    },
    Withdraw {
        place: u32,
    },
    Leave {
        place: u32,
    },
}

#[derive(Clone, Copy, PartialEq, Eq)]
enum Answer {
    At(u32),
    /// This place has a job of the slice.
    Twice(u32),
    Full,
    /// The place, the serial and the number of what was claimed.
    Held(u32, u64, u64),
    NoneWaits,
    Done,
    /// The serial that is kept, the state, and the serial that was given.
    Stale(u64, PlaceState, u64),
    /// The place is held for another job.
    Other,
    /// The number of what is given back.
    Job(u64),
    /// The place is in this state.
    In(PlaceState),
}

fn put(ring: &mut Ring, number: u64) -> Result<Answer, NoMemory> {
    Ok(match ring.put(empty_slice(number)?) {
        Ok(place) => Answer::At(place),
        Err(PutRefusal::Twice { job: _, place }) => Answer::Twice(place),
        Err(PutRefusal::Full { job: _ }) => Answer::Full,
    })
}

fn claim(ring: &mut Ring, worker: u32) -> Result<Answer, NoMemory> {
    Ok(match ring.claim(worker)? {
        Some(claim) => Answer::Held(claim.place, claim.serial, claim.job.number),
        None => Answer::NoneWaits,
    })
}

fn complete(
    alloc: Global,
    ring: &mut Ring,
    place: u32,
    serial: u64,
    number: u64,
) -> Result<Answer, NoMemory> {
    let done = decode(alloc, empty_slice(number)?)?;
    Ok(match ring.complete(place, serial, done) {
        Ok(()) => Answer::Done,
        Err(
            CompleteRefusal::Stale {
                kept,
                state,
                given,
                done: _,
            },
        ) => Answer::Stale(kept, state, given),
        Err(CompleteRefusal::Other { done: _ }) => Answer::Other,
    })
}

fn take(ring: &mut Ring, place: u32) -> Answer {
    match ring.take(place) {
        Ok(done) => Answer::Job(done.job.number),
        Err(not_yet) => Answer::In(not_yet.state),
    }
}

fn withdraw(ring: &mut Ring, place: u32) -> Answer {
    match ring.withdraw(place) {
        Ok(job) => Answer::Job(job.number),
        Err(not_waiting) => Answer::In(not_waiting.state),
    }
}

fn leave(ring: &mut Ring, place: u32) -> Answer {
    match ring.leave(place) {
        Ok(()) => Answer::Done,
        Err(not_held) => Answer::In(not_held.state),
    }
}

fn turn(alloc: Global, ring: &mut Ring, call: Call) -> Result<Answer, NoMemory> {
    match call {
        Call::Put { number } => put(ring, number),
        Call::Claim { worker } => claim(ring, worker),
        Call::Complete {
            place,
            serial,
            number,
        } => complete(alloc, ring, place, serial, number),
        Call::Take { place } => Ok(take(ring, place)),
        Call::Withdraw { place } => Ok(withdraw(ring, place)),
        Call::Leave { place } => Ok(leave(ring, place)),
    }
}

// A completion that comes too late is stale.
const LATE: [(Call, Answer); 10] = [
    (Call::Put { number: 0 }, Answer::At(0)),
    (Call::Put { number: 0 }, Answer::Twice(0)),
    (Call::Put { number: 1 }, Answer::Full),
    (Call::Take { place: 0 }, Answer::In(PlaceState::Waiting)),
    (Call::Claim { worker: 1 }, Answer::Held(0, 1, 0)),
    (Call::Take { place: 0 }, Answer::In(PlaceState::Held)),
    (Call::Withdraw { place: 0 }, Answer::In(PlaceState::Held)),
    (Call::Leave { place: 0 }, Answer::Done),
    (Call::Put { number: 1 }, Answer::At(0)),
    (
        Call::Complete {
            place: 0,
            serial: 1,
            number: 0,
        },
        Answer::Stale(2, PlaceState::Waiting, 1),
    ),
];

// What is done is taken.
const DONE: [(Call, Answer); 13] = [
    (Call::Put { number: 6 }, Answer::At(0)),
    (Call::Put { number: 7 }, Answer::At(1)),
    (Call::Claim { worker: 1 }, Answer::Held(0, 1, 6)),
    (Call::Claim { worker: 2 }, Answer::Held(1, 1, 7)),
    (
        Call::Complete {
            place: 0,
            serial: 1,
            number: 7,
        },
        Answer::Other,
    ),
    (
        Call::Complete {
            place: 0,
            serial: 1,
            number: 6,
        },
        Answer::Done,
    ),
    (Call::Put { number: 6 }, Answer::Twice(0)),
    (Call::Claim { worker: 0 }, Answer::NoneWaits),
    (Call::Leave { place: 0 }, Answer::In(PlaceState::Done)),
    (Call::Take { place: 0 }, Answer::Job(6)),
    (Call::Put { number: 6 }, Answer::At(0)),
    (Call::Withdraw { place: 0 }, Answer::Job(6)),
    (Call::Take { place: 0 }, Answer::In(PlaceState::Empty)),
];

// A place after the last is empty.
const PAST: [(Call, Answer); 5] = [
    (Call::Take { place: 2 }, Answer::In(PlaceState::Empty)),
    (Call::Withdraw { place: 2 }, Answer::In(PlaceState::Empty)),
    (Call::Withdraw { place: 0 }, Answer::In(PlaceState::Empty)),
    (Call::Leave { place: 2 }, Answer::In(PlaceState::Empty)),
    (
        Call::Complete {
            place: 2,
            serial: 0,
            number: 0,
        },
        Answer::Stale(0, PlaceState::Empty, 0),
    ),
];

// The place of the first call that a new ring of so many places answers otherwise, if there is one.
fn first_other(
    alloc: Global,
    places: u32,
    calls: &[(Call, Answer)],
) -> Result<Option<usize>, NoMemory> {
    let mut ring = Ring::new(alloc, places)?;
    for (place, (call, answer)) in calls.iter().enumerate() {
        if turn(alloc, &mut ring, *call)? != *answer {
            return Ok(Some(place));
        }
    }
    Ok(None)
}

#[test]
fn each_call_of_a_ring_is_answered(rt: HostRuntime) -> Result<(), Fail> {
    let rows = [
        (1, LATE.as_slice()),
        (2, DONE.as_slice()),
        (2, PAST.as_slice()),
    ];
    for (places, calls) in rows {
        assert_eq!(rt; first_other(rt.alloc(), places, calls)?, None);
    }
    Ok(())
}
