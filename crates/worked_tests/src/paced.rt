//! A capture whose slices come only as workers take them, one of which is held up.

use crate::captures::{Outside, capture, words_of};
use slice_pool::{Crew, Worker};
use std::alloc::Global;
use std::sync::Arc;
use std::test::Fail;
use std::thread::Threads;
use vc_ports::{Got, PlainSource, Source};
use vc_slice::Hands;
use worked_common::{Doorkeeper, HEADER_PAYLOAD, slice_payload};

// A source of five entries, each of which takes two reads. It gives the fourth only once a worker is
// held with the slice of the third, and the fifth only once another worker passed with that of the
// fourth; then it lets the held one go.
#[derive(Drop)]
struct Paced<S> {
    inner: S,
    door: Arc<Doorkeeper>,
    reads: u32,
    // Nothing was waited for in vain.
    in_time: bool,
}

impl<S: Source> Source for Paced<S> {
    ghost left = { λ s. S.left s.inner };

    ghost faults = { λ s. S.faults s.inner };

    ghost ends = { λ s. S.ends s.inner };

    fn read(&mut self, buf: &mut [u8]) -> Got {
        self.reads = self.reads.saturating_add(1);
        if self.reads == 7 {
            self.in_time = self.door.comes_to_hold(0);
        }
        if self.reads == 9 {
            self.in_time = self.door.comes_to_let_pass(1) && self.in_time;
            self.door.open();
        }
        self.inner.read(buf)
    }
}

// Wavelet 3, depth 1, 3 by 1 slices.
const THREE_SLICES: [u8; 19] = [
    0, 0, 0, 0xEC, 0, 0, 0, 0, 0, 0, 0, 1, 0, 3, 0, 0, 0x09, 0x09, 0x90,
];

fn three_slices(alloc: Global) -> Result<Vec<u8>, Fail> {
    capture(
        alloc,
        &[
            &HEADER_PAYLOAD,
            &THREE_SLICES,
            &slice_payload(0, 0),
            &slice_payload(0, 1),
            &slice_payload(0, 2),
        ],
    )
}

// Whether the frame is written, each slice of which was waited for.
fn is_frame_written<H: Threads + Copy + Send + Sync, P: Hands>(
    rt: H,
    alloc: Global,
    door: &Arc<Doorkeeper>,
    hands: &mut P,
) -> Result<bool, Fail>
    requires { P.is_free hands.old }
{
    let words = words_of(alloc, "decode --workers 2")?;
    let mut input = Paced {
        inner: PlainSource::new(three_slices(alloc)?),
        door: Arc::try_clone(door)?,
        reads: 0,
        in_time: false,
    };
    let mut outside = Outside::new(alloc, 96)?;
    let status = outside.run(rt, alloc, &words, &mut input, hands);
    Ok(status == 0 && input.in_time && outside.output.bytes() == [0x80; 96].as_slice())
}

#[test]
fn a_held_worker_holds_up_no_frame(rt: HostRuntime) -> Result<(), Fail> {
    let alloc = rt.alloc();
    let door = Arc::new(alloc, Doorkeeper::new())?;
    let mut crew = Crew::new(rt, alloc, |worker: Worker| worker.start(rt, &door));
    let written = is_frame_written(rt, alloc, &door, &mut crew);
    crew.stop();
    assert!(rt; written?);
    Ok(())
}
