//! The counts that a run tells, and which frames they say are missing.

use crate::captures::{Outside, capture, words_of};
use run_counts::MissingFrames;
use std::alloc::Global;
use std::test::Fail;
use vc_ports::PlainSource;
use vc_types::NoMemory;
use worked_common::{HEADER_PAYLOAD, Recorder, params_payload, slice_payload};

#[test]
fn decode_tells_what_it_heard_and_wrote(rt: HostRuntime) -> Result<(), Fail> {
    let alloc = rt.alloc();
    // Pictures 0, 1 and 4, in a window of two. The last slice of picture 1 is late.
    let bytes = capture(
        alloc,
        &[
            &HEADER_PAYLOAD,
            &params_payload(0),
            &slice_payload(0, 0),
            &slice_payload(0, 1),
            &params_payload(1),
            &slice_payload(1, 0),
            &params_payload(4),
            &slice_payload(4, 0),
            &slice_payload(4, 1),
            &slice_payload(1, 1),
        ],
    )?;
    let length = bytes.len() as u64;
    let words = words_of(alloc, "decode --window 2 --workers 0")?;
    let mut hands = Recorder::new(alloc, 100)?;
    let mut outside = Outside::new(alloc, 192)?;
    let mut input = PlainSource::new(bytes);
    let status = outside.run(&rt, alloc, &words, &mut input, &mut hands);
    let counts = outside.counts.read();
    assert_eq!(rt; (status, counts.frames), (0, 2));
    // An entry has its length in front of its datagram.
    assert_eq!(rt;
        (counts.passed.datagrams, counts.passed.bytes),
        (10, length.saturating_sub(20))
    );
    assert_eq!(rt; (counts.late, counts.incomplete, counts.unsound), (1, 1, 0));
    let missing = outside.counts.missing().ok_or("they are told")?;
    assert_eq!(rt; ranges(alloc, &missing)?.as_slice(), [(1, 3)].as_slice());
    Ok(())
}

// The ranges of missing frames.
fn ranges(alloc: Global, missing: &MissingFrames) -> Result<Vec<(u32, u32)>, NoMemory> {
    let mut ranges = Vec::new(alloc);
    for gap in missing.gaps() {
        ranges.push((gap.first, gap.last))?;
    }
    Ok(ranges)
}

#[test]
fn frames_are_missing_within_a_session(rt: HostRuntime) -> Result<(), Fail> {
    let mut missing = MissingFrames::new();
    for picture in [7, 8, 10, 14] {
        missing.write(picture, false);
    }
    missing.open_session();
    for picture in [4_294_967_295, 4_294_967_298] {
        missing.write(picture, false);
    }
    assert_eq!(rt;
        ranges(rt.alloc(), &missing)?.as_slice(),
        [(9, 9), (11, 13), (0, 1)].as_slice()
    );
    Ok(())
}

#[test]
fn a_frame_of_two_fields_has_half_their_number(rt: HostRuntime) -> Result<(), Fail> {
    let mut missing = MissingFrames::new();
    for picture in [1, 3, 9, 4_294_967_293, 4_294_967_299] {
        missing.write(picture, true);
    }
    assert_eq!(rt;
        ranges(rt.alloc(), &missing)?.as_slice(),
        [(2, 3), (5, 2_147_483_645), (2_147_483_647, 0)].as_slice()
    );
    Ok(())
}

#[test]
fn a_picture_that_makes_no_frame_is_missing(rt: HostRuntime) -> Result<(), Fail> {
    let mut missing = MissingFrames::new();
    for (frames, picture) in [(1, 5), (1, 6), (2, 7)] {
        missing.release(frames, picture, false);
    }
    assert_eq!(rt;
        ranges(rt.alloc(), &missing)?.as_slice(),
        [(6, 6)].as_slice()
    );
    Ok(())
}

#[test]
fn frames_are_filled_where_few_are_missing(rt: HostRuntime) -> Result<(), Fail> {
    let mut missing = MissingFrames::new();
    for picture in [7, 8, 10, 14] {
        missing.write(picture, false);
    }
    assert_eq!(rt; missing.filled(), 4);
    missing.write(265, false);
    assert_eq!(rt; missing.filled(), 254);
    missing.write(517, false);
    assert_eq!(rt; missing.filled(), 254);
    missing.open_session();
    missing.write(520, false);
    assert_eq!(rt; missing.filled(), 254);
    Ok(())
}

#[test]
fn a_hundred_ranges_are_kept(rt: HostRuntime) -> Result<(), Fail> {
    let mut missing = MissingFrames::new();
    for number in 0..101u64 {
        missing.write(2 * number, false);
    }
    assert_eq!(rt; (missing.gaps().len(), missing.has_more()), (100, false));
    missing.write(300, false);
    assert_eq!(rt; (missing.gaps().len(), missing.has_more()), (100, true));
    Ok(())
}
