//! A receiver that has failed: it calls nothing any more.

ghost use Rattle.std.specs.Prelude.{◌≡◌};
ghost use Rattle.link_slices.specs.Calls.{PlacesAreBelow};

use bytes::Bytes;
use link_receiver::{EnterFault, Outcome, Receiver};
use std::alloc::Global;
use std::test::Fail;
use std::thread::Threads;
use vc_ports::MemSink;
use vc_slice::{Places, RunDone, RunLoad};
use vc_types::NoMemory;
use worked_common::{HEADER_PAYLOAD, params_payload, slice_payload};

// One place, which counts its calls and gives nothing back.
#[derive(Drop)]
struct Counting {
    calls: u64,
}

impl Counting {
    fn count(&mut self) {
        self.calls = self.calls.saturating_add(1);
    }
}

impl Places for Counting {
    ghost use Rattle.std.specs.Prelude.{None};

    ghost bound = { λ _. 1 };

    ghost told = { λ _. None };

    fn put(&mut self, load: RunLoad) -> Result<u32, RunLoad> {
        self.count();
        Err(load)
    }

    fn take(&mut self, _place: u32) -> Option<RunDone> {
        self.count();
        None
    }

    fn withdraw(&mut self, _place: u32) -> Option<RunLoad> {
        self.count();
        None
    }

    fn leave(&mut self, _place: u32) {
        self.count();
    }
}

// A datagram of one source.
fn datagram(alloc: Global, payload: &[u8]) -> Result<Bytes, NoMemory> {
    let mut bytes = Vec::new(alloc);
    bytes.extend_from_slice(&[0x80, 0x60, 0, 0, 0, 0, 0, 0, 0, 0, 0, 1])?;
    bytes.extend_from_slice(payload)?;
    Ok(Bytes::copy_from_slice(alloc, &bytes)?)
}

// Takes a datagram with each payload, up to the first that doesn't come to its outcome. Whether there is
// none.
fn enter_all<H: Threads + Copy>(
    alloc: Global,
    payloads: &[(&[u8], Result<Outcome, EnterFault>)],
    receiver: &mut Receiver<H>,
    places: &mut Counting,
    sink: &mut MemSink,
) -> Result<bool, NoMemory>
    requires { PlacesAreBelow 1 receiver.old.reception.out }
    ensures { PlacesAreBelow 1 receiver.new.reception.out }
{
    for (payload, outcome) in payloads {
        if !is_same(
            receiver.enter(datagram(alloc, payload)?, places, sink),
            *outcome,
        ) {
            return Ok(false);
        }
    }
    Ok(true)
}

// Of the outcomes that are wanted here.
fn is_same(came: Result<Outcome, EnterFault>, wanted: Result<Outcome, EnterFault>) -> bool {
    match (came, wanted) {
        (Ok(Outcome::HeaderNew), Ok(Outcome::HeaderNew))
        | (Ok(Outcome::ParamsKept), Ok(Outcome::ParamsKept))
        | (Ok(Outcome::SlicesKept), Ok(Outcome::SlicesKept)) => true,
        (Err(came), Err(wanted)) => came == wanted,
        _ => false,
    }
}

// Takes a header and a picture, and ends. Whether each is taken, and the end is a fault of the sink.
fn enter_picture<H: Threads + Copy>(
    alloc: Global,
    receiver: &mut Receiver<H>,
    places: &mut Counting,
    sink: &mut MemSink,
) -> Result<bool, NoMemory>
    requires { PlacesAreBelow 1 receiver.old.reception.out }
    ensures { PlacesAreBelow 1 receiver.new.reception.out }
{
    let payloads: [(&[u8], Result<Outcome, EnterFault>); 4] = [
        (&HEADER_PAYLOAD, Ok(Outcome::HeaderNew)),
        (&params_payload(0), Ok(Outcome::ParamsKept)),
        (&slice_payload(0, 0), Ok(Outcome::SlicesKept)),
        (&slice_payload(0, 1), Ok(Outcome::SlicesKept)),
    ];
    if !enter_all(alloc, &payloads, receiver, places, sink)? {
        return Ok(false);
    }
    Ok(receiver.drain(places, sink) == Err(EnterFault::WriteFault))
}

// Whether it ends again, after one datagram that it doesn't take.
fn has_ended<H: Threads + Copy>(
    alloc: Global,
    receiver: &mut Receiver<H>,
    places: &mut Counting,
    sink: &mut MemSink,
) -> Result<bool, NoMemory>
    requires { PlacesAreBelow 1 receiver.old.reception.out }
{
    let payloads: [(&[u8], Result<Outcome, EnterFault>); 1] = [(
        &params_payload(1),
        Err(EnterFault::Ended),
    )];
    Ok(
        enter_all(alloc, &payloads, receiver, places, sink)?
            && receiver.drain(places, sink) == Err(EnterFault::Ended),
    )
}

// The first write fails, that of the picture's frame, and a second one would not.
#[test]
fn nothing_is_called_after_a_fault(rt: HostRuntime) -> Result<(), Fail> {
    let alloc = rt.alloc();
    let mut places = Counting { calls: 0 };
    let mut sink = MemSink::new(alloc, 96, vec![in alloc; 1]?)?;
    let mut receiver = Receiver::new(alloc, None::<HostRuntime>, 2);
    assert!(rt; enter_picture(alloc, &mut receiver, &mut places, &mut sink)?);
    let calls = places.calls;
    assert!(rt; has_ended(alloc, &mut receiver, &mut places, &mut sink)?);
    assert_eq!(rt; (calls, places.calls), (2, 2));
    assert!(rt; sink.bytes().is_empty());
    Ok(())
}
