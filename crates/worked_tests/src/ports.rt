//! Sources and sinks over std's readers and writers.

use std::io::Cursor;
use std::test::Fail;
use vc_ports::{Gate, Got, NoGate, Sink, Source, StdSink, StdSource, Took};

// Each read has room for two bytes. What it doesn't give stays in the buffer.
const READS: [(Got, [u8; 2]); 3] = [
    (Got::Bytes(2), [1, 2]),
    (Got::Bytes(1), [3, 2]),
    (Got::End, [3, 2]),
];

fn reads_all<S: Source>(source: &mut S) -> bool {
    let mut buf = [9; 2];
    for (answer, bytes) in READS {
        if !is_same_read(source.read(&mut buf), answer) || buf != bytes {
            return false;
        }
    }
    true
}

fn is_same_read(got: Got, answer: Got) -> bool {
    match (got, answer) {
        (Got::Bytes(got), Got::Bytes(count)) => got == count,
        (Got::End, Got::End) | (Got::Failed, Got::Failed) => true,
        _ => false,
    }
}

// Writes of two bytes, where there is room for three. A write that takes none is a fault.
const WRITES: [([u8; 2], Took); 3] = [
    ([1, 2], Took::Bytes(2)),
    ([3, 4], Took::Bytes(1)),
    ([4, 5], Took::Failed),
];

fn writes_three<O: Sink>(sink: &mut O) -> bool {
    for (piece, answer) in WRITES {
        if !is_same_write(sink.write(&piece), answer) {
            return false;
        }
    }
    true
}

fn is_same_write(took: Took, answer: Took) -> bool {
    match (took, answer) {
        (Took::Bytes(took), Took::Bytes(count)) => took == count,
        (Took::Failed, Took::Failed) => true,
        _ => false,
    }
}

#[test]
fn bytes_go_through_std(rt: HostRuntime) -> Result<(), Fail> {
    let mut bytes = [0; 3];
    assert!(rt; reads_all(&mut StdSource::new(&[1, 2, 3][..])));
    assert!(rt; writes_three(&mut StdSink::new(Cursor::new(&mut bytes[..]))));
    assert_eq!(rt; bytes, [1, 2, 3]);
    NoGate.pass(1, 2);
    Ok(())
}
