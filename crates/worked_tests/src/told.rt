//! Hands that tell what they are asked, and decode nothing.

use crate::captures::{Outside, capture, words_of};
use std::alloc::Global;
use std::test::Fail;
use std::thread::Threads;
use vc_ports::{MemSink, PlainSource};
use worked_common::{HEADER_PAYLOAD, Recorder, params_payload, slice_payload};

// The number of picture 0.
const FIRST: u64 = 1 << 32;

// Pictures 0, 1 and 3, in a window of two. The last slices of pictures 1 and 0 are late.
fn loss_and_disorder(alloc: Global) -> Result<Vec<u8>, Fail> {
    capture(
        alloc,
        &[
            &HEADER_PAYLOAD,
            &params_payload(0),
            &slice_payload(0, 0),
            &slice_payload(0, 1),
            &params_payload(1),
            &slice_payload(1, 0),
            &params_payload(3),
            &slice_payload(3, 0),
            &slice_payload(3, 1),
            &slice_payload(1, 1),
            &slice_payload(0, 1),
        ],
    )
}

// What a command writes by these words, and its status.
fn run<H: Threads + Copy + Send + Sync>(
    rt: H,
    alloc: Global,
    words: &str,
    input: Vec<u8>,
    hands: &mut Recorder,
) -> Result<(u8, MemSink), Fail> {
    let words = words_of(alloc, words)?;
    let mut input = PlainSource::new(input);
    let mut outside = Outside::new(alloc, 192)?;
    let status = outside.run(rt, alloc, &words, &mut input, hands);
    Ok((status, outside.output))
}

// Whether pictures 0 and 3 are written.
fn are_two_frames<H: Threads + Copy + Send + Sync>(
    rt: H,
    alloc: Global,
    hands: &mut Recorder,
) -> Result<bool, Fail> {
    let capture = loss_and_disorder(alloc)?;
    let (status, output) = run(rt, alloc, "decode --window 2 --workers 3", capture, hands)?;
    Ok(status == 0 && output.bytes() == [0x80; 192].as_slice())
}

// They are released one after another, and none of their slices came back.
#[test]
fn each_slice_is_offered_as_it_comes_and_its_place_freed(rt: HostRuntime) -> Result<(), Fail> {
    let alloc = rt.alloc();
    let mut hands = Recorder::new(alloc, 100)?;
    assert!(rt; are_two_frames(&rt, alloc, &mut hands)?);
    let offered = [
        (FIRST, 0),
        (FIRST, 1),
        (FIRST + 1, 0),
        (FIRST + 3, 0),
        (FIRST + 3, 1),
    ];
    assert!(rt; hands.was_offered(&offered));
    assert_eq!(rt; hands.started(), [3].as_slice());
    assert_eq!(rt; hands.freed(), [0, 1, 2, 3, 4].as_slice());
    assert!(rt; !hands.asked_freed());
    Ok(())
}

// How many workers a command starts by these words.
const STARTED: [(&str, &[u32]); 3] = [
    ("decode --workers 7", &[7]),
    (
        "gen --width 34 --height 20 --frames 1 --check 1 --workers 2",
        &[2],
    ),
    ("play", &[]),
];

#[test]
fn as_many_workers_are_started_as_asked_for(rt: HostRuntime) -> Result<(), Fail> {
    let alloc = rt.alloc();
    for (words, started) in STARTED {
        let mut hands = Recorder::new(alloc, 100)?;
        run(&rt, alloc, words, Vec::new(alloc), &mut hands)?;
        assert_eq!(rt; hands.started(), started);
    }
    Ok(())
}
