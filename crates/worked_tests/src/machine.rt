//! The machine of a feeder and its workers: events one after another, and the number of the condition that
//! each breaks, or 0.

use bytes::Bytes;
use link_core::{Core, Event, StepRefusal, step};
use std::alloc::Global;
use std::test::Fail;
use vc_types::NoMemory;

// A picture of 8 by 4 samples, 4:4:4, whose two slices are empty: the header, and for a picture its
// parameters and its slices, as datagrams.
const HEADER: [u8; 21] = [
    0x80, 0x60, 0, 0, 0, 0, 0, 0, 0, 0, 0, 1, 0, 0, 0, 0, 0x70, 0xF0, 0x63, 0xC0, 0x80,
];

const PARAMS: [u8; 31] = [
    0x80, 0x60, 0, 1, 0, 0, 0, 0, 0, 0, 0, 1, 0, 0, 0, 0xEC, 0, 0, 0, 0, 0, 0, 0, 1, 0, 3, 0, 0,
    0x09, 0x66, 0x40,
];

const SLICES: [u8; 40] = [
    0x80, 0x60, 0, 2, 0, 0, 0, 0, 0, 0, 0, 1, 0, 0, 0, 0xEC, 0, 0, 0, 0, 0, 0, 0, 1, 0, 8, 0, 2, 0,
    0, 0, 0, 0, 0, 0, 0, 0, 0, 0, 0,
];

const FIRST: u64 = 1 << 32;

// An event, the pictures by their place in the session.
#[derive(Clone, Copy)]
enum Move {
    Header,
    Params(u8),
    Slices(u8),
    Put(u32, u64, u32),
    Claim(u32, u32),
    Complete(u32, u64),
    Take(u32),
    Withdraw(u32),
    Leave(u32),
    Redo(u64, u32),
    Release(u64),
    Finish,
}

// A datagram of the picture of this number.
fn datagram(alloc: Global, bytes: &[u8], picture: u8) -> Result<Event, NoMemory> {
    let mut copy = Vec::from_slice(alloc, bytes)?;
    if let Some(number) = copy.get_mut(19) {
        *number = picture;
    }
    match Bytes::from_vec(copy) {
        Ok(bytes) => Ok(Event::Enter(bytes)),
        Err(_) => Err(NoMemory),
    }
}

fn header(alloc: Global) -> Result<Event, NoMemory> {
    match Bytes::copy_from_slice(alloc, &HEADER) {
        Ok(bytes) => Ok(Event::Enter(bytes)),
        Err(_) => Err(NoMemory),
    }
}

fn place_event(m: Move) -> Event {
    match m {
        Move::Claim(worker, place) => Event::Claim { worker, place },
        Move::Complete(place, serial) => Event::Complete { place, serial },
        Move::Take(place) => Event::Take { place },
        Move::Withdraw(place) => Event::Withdraw { place },
        Move::Leave(place) => Event::Leave { place },
        _ => Event::Finish,
    }
}

fn event(alloc: Global, m: Move) -> Result<Event, NoMemory> {
    match m {
        Move::Header => header(alloc),
        Move::Params(picture) => datagram(alloc, &PARAMS, picture),
        Move::Slices(picture) => datagram(alloc, &SLICES, picture),
        Move::Put(place, picture, index) => Ok(Event::Put {
            place,
            number: FIRST.saturating_add(picture),
            index,
        }),
        Move::Redo(picture, index) => Ok(Event::Redo {
            number: FIRST.saturating_add(picture),
            index,
        }),
        Move::Release(picture) => Ok(Event::Release {
            number: FIRST.saturating_add(picture),
        }),
        other => Ok(place_event(other)),
    }
}

// The condition that an event breaks, or 0.
fn broken(alloc: Global, core: &mut Core, m: Move) -> Result<u8, NoMemory> {
    match step(core, event(alloc, m)?) {
        Ok(()) => Ok(0),
        Err(StepRefusal::NotLegal { condition }) => Ok(condition),
        Err(StepRefusal::NoMemory) => Err(NoMemory),
    }
}

// Whether so many bytes were written, and all are 80 hexadecimal.
fn is_grey(core: &Core, count: usize) -> bool {
    core.written().len() == count && core.written().iter().all(|byte| *byte == 0x80)
}

// The feeder decodes what no worker did.
const REDONE: [(Move, u8); 17] = [
    (Move::Header, 0),
    (Move::Params(0), 0),
    (Move::Slices(0), 0),
    (Move::Put(0, 0, 0), 0),
    (Move::Claim(1, 0), 0),
    (Move::Leave(0), 0),
    // The worker comes too late.
    (Move::Complete(0, 1), 0),
    (Move::Take(0), 1),
    (Move::Redo(0, 0), 0),
    // Pictures before it that may still come.
    (Move::Release(0), 1),
    (Move::Finish, 0),
    (Move::Put(0, 0, 1), 3),
    // A slice has no answer.
    (Move::Release(0), 2),
    (Move::Redo(0, 1), 0),
    (Move::Redo(0, 1), 2),
    (Move::Release(0), 0),
    (Move::Header, 1),
];

// A place has one slice at a time.
const ONE_PLACE: [(Move, u8); 22] = [
    (Move::Header, 0),
    (Move::Params(0), 0),
    (Move::Put(0, 0, 0), 2),
    (Move::Slices(0), 0),
    (Move::Params(1), 0),
    (Move::Slices(1), 0),
    (Move::Put(1, 0, 0), 1),
    (Move::Put(0, 0, 0), 0),
    (Move::Put(0, 1, 0), 1),
    (Move::Take(0), 1),
    (Move::Claim(1, 0), 0),
    (Move::Claim(2, 0), 1),
    (Move::Withdraw(0), 1),
    (Move::Leave(0), 0),
    (Move::Put(0, 1, 0), 0),
    // The serial is 2 by now, and nobody holds the place.
    (Move::Complete(0, 1), 0),
    (Move::Withdraw(0), 0),
    (Move::Put(0, 1, 1), 0),
    (Move::Claim(2, 0), 0),
    (Move::Complete(0, 3), 0),
    (Move::Take(0), 0),
    (Move::Put(0, 1, 1), 5),
];

// Each condition of each event, but those above.
const TWO_PLACES: [(Move, u8); 73] = [
    (Move::Header, 0),
    (Move::Params(0), 0),
    (Move::Slices(0), 0),
    (Move::Put(0, 0, 0), 0),
    // The slice is in place 0.
    (Move::Put(1, 0, 0), 4),
    // There are two places.
    (Move::Put(2, 0, 1), 1),
    (Move::Leave(0), 1),
    (Move::Redo(1, 0), 1),
    (Move::Claim(1, 1), 1),
    (Move::Withdraw(1), 1),
    (Move::Take(1), 1),
    (Move::Put(1, 0, 1), 0),
    (Move::Claim(2, 1), 0),
    (Move::Complete(1, 1), 0),
    (Move::Withdraw(1), 1),
    (Move::Leave(1), 1),
    (Move::Claim(1, 1), 1),
    (Move::Take(1), 0),
    (Move::Take(1), 1),
    (Move::Put(1, 0, 1), 5),
    (Move::Redo(0, 1), 2),
    (Move::Release(0), 1),
    // The job waits still.
    (Move::Complete(0, 1), 0),
    (Move::Take(0), 1),
    (Move::Claim(1, 0), 0),
    // Another serial.
    (Move::Complete(0, 0), 0),
    (Move::Take(0), 1),
    (Move::Complete(0, 1), 0),
    (Move::Take(0), 0),
    (Move::Params(1), 0),
    (Move::Slices(1), 0),
    (Move::Params(2), 0),
    (Move::Slices(2), 0),
    // Three pictures were opened, and a fourth may come before them.
    (Move::Release(0), 1),
    (Move::Params(3), 0),
    (Move::Release(1), 1),
    (Move::Release(0), 0),
    (Move::Release(0), 1),
    (Move::Slices(3), 0),
    (Move::Put(0, 1, 0), 0),
    (Move::Put(1, 1, 1), 0),
    (Move::Params(4), 0),
    (Move::Slices(4), 0),
    (Move::Withdraw(1), 0),
    // The window has passed picture 0.
    (Move::Put(1, 0, 0), 3),
    (Move::Params(5), 0),
    (Move::Put(1, 1, 1), 3),
    (Move::Redo(1, 0), 0),
    (Move::Release(1), 2),
    (Move::Redo(1, 1), 0),
    (Move::Release(1), 0),
    (Move::Release(3), 1),
    // Its picture was released.
    (Move::Claim(2, 0), 0),
    (Move::Complete(0, 2), 0),
    (Move::Take(0), 0),
    (Move::Release(2), 2),
    (Move::Redo(2, 0), 0),
    (Move::Redo(2, 1), 0),
    (Move::Release(2), 0),
    (Move::Redo(5, 0), 1),
    (Move::Finish, 0),
    (Move::Release(4), 1),
    (Move::Release(3), 2),
    (Move::Put(0, 4, 0), 3),
    (Move::Redo(3, 0), 0),
    (Move::Redo(3, 1), 0),
    (Move::Release(3), 0),
    (Move::Redo(4, 0), 0),
    (Move::Redo(4, 1), 0),
    (Move::Release(4), 0),
    // It has no slices.
    (Move::Release(5), 0),
    (Move::Release(6), 1),
    (Move::Params(6), 1),
];

// The place of the first event that breaks another condition than is wanted, in a machine with so many
// places. It is past the last one where only other bytes are written than so many grey ones.
fn first_other(
    alloc: Global,
    places: u32,
    moves: &[(Move, u8)],
    count: usize,
) -> Result<Option<usize>, NoMemory> {
    let mut core = Core::new(alloc, 4, places)?;
    for (place, (m, condition)) in moves.iter().enumerate() {
        if broken(alloc, &mut core, *m)? != *condition {
            return Ok(Some(place));
        }
    }
    Ok(if is_grey(&core, count) {
        None
    } else {
        Some(moves.len())
    })
}

#[test]
fn each_event_has_its_conditions(rt: HostRuntime) -> Result<(), Fail> {
    let rows = [
        (1, REDONE.as_slice(), 96),
        (1, ONE_PLACE.as_slice(), 0),
        (2, TWO_PLACES.as_slice(), 480),
    ];
    for (places, moves, count) in rows {
        assert_eq!(rt; first_other(rt.alloc(), places, moves, count)?, None);
    }
    Ok(())
}

const CLAIMED: [Move; 13] = [
    Move::Header,
    Move::Params(0),
    Move::Slices(0),
    Move::Params(1),
    Move::Slices(1),
    Move::Put(0, 0, 0),
    Move::Put(1, 0, 1),
    Move::Put(2, 1, 0),
    Move::Put(3, 1, 1),
    Move::Claim(1, 0),
    Move::Claim(2, 1),
    Move::Claim(1, 2),
    Move::Claim(2, 3),
];

const RELEASED: [Move; 7] = [
    Move::Take(3),
    Move::Take(0),
    Move::Take(2),
    Move::Take(1),
    Move::Finish,
    Move::Release(0),
    Move::Release(1),
];

// Whether each of the events is legal.
fn all_legal(alloc: Global, core: &mut Core, moves: &[Move]) -> Result<bool, NoMemory> {
    for m in moves {
        if broken(alloc, core, *m)? != 0 {
            return Ok(false);
        }
    }
    Ok(true)
}

// Two workers hold four slices, and complete them in this order, each once more with a serial that
// is stale.
fn writes_in_order(alloc: Global, order: &[u32]) -> Result<bool, NoMemory> {
    let mut core = Core::new(alloc, 4, 4)?;
    let mut legal = all_legal(alloc, &mut core, &CLAIMED)?;
    for place in order {
        let moves = [Move::Complete(*place, 2), Move::Complete(*place, 1)];
        legal = all_legal(alloc, &mut core, &moves)? && legal;
    }
    legal = all_legal(alloc, &mut core, &RELEASED)? && legal;
    Ok(legal && is_grey(&core, 192))
}

fn are_different(order: &[u32]) -> bool {
    (0..4).all(|place| order.contains(&place))
}

#[test]
fn the_order_of_completions_changes_nothing(rt: HostRuntime) -> Result<(), Fail> {
    let alloc = rt.alloc();
    for n in 0..256u32 {
        let order = [n % 4, n / 4 % 4, n / 16 % 4, n / 64];
        if are_different(&order) {
            assert!(rt; writes_in_order(alloc, &order)?);
        }
    }
    Ok(())
}
