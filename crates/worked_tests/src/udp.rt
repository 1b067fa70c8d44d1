//! The system's sockets.

use link_net::{Launcher, Limits, LiveWire, Reader, WireNotes};
use run_counts::RunCounts;
use std::alloc::Global;
use std::test::Fail;
use std::time::{Clock, Duration, Instant};
use vc_ports::{Came, Reached, Sent, Wire};

// Any of them may be in use.
const PLACES: [&str; 4] = [
    "127.0.0.1:50413",
    "127.0.0.1:51427",
    "127.0.0.1:52433",
    "127.0.0.1:53441",
];

const LIMITS: Limits = Limits {
    room: 1 << 20,
    system: 1 << 20,
    seconds: 0,
    frames: 0,
};

// What comes from a wire that three bytes are sent over to itself, if it can have the place.
fn comes_back<N: Wire>(
    wire: &mut N,
    place: &str,
    alloc: Global,
) -> Result<Option<(Came, [u8; 3])>, Fail> {
    let mut buf = vec![in alloc; 0; 65535]?;
    let Reached::Yes = wire.listen(place) else {
        return Ok(None);
    };
    let Reached::Yes = wire.aim(place) else {
        return Ok(None);
    };
    let Sent::Yes = wire.send(&[1, 2, 3]) else {
        return Ok(None);
    };
    let came = wire.recv(&mut buf);
    Ok(Some((came, [buf[0], buf[1], buf[2]])))
}

#[test]
fn three_bytes_come_back(rt: HostRuntime) -> Result<(), Fail> {
    let counts = RunCounts::new();
    for place in PLACES {
        let start = Box::new(rt.alloc(), move |reader: Reader| reader.start(rt))?;
        let mut wire = LiveWire::new(rt, rt.alloc(), LIMITS, Launcher::new(start), Some(&counts));
        let came = comes_back(&mut wire, place, rt.alloc());
        let notes = wire.stop();
        if let Some(came) = came? {
            assert_eq!(rt; came, (Came::Datagram(3), [1, 2, 3]));
            assert_eq!(rt; (notes.unsent, dropped(&notes)), (0, Some(0)));
            let counts = counts.read();
            assert_eq!(rt; (counts.sent.datagrams, counts.sent.bytes), (1, 3));
            assert_eq!(rt; (counts.came.datagrams, counts.came.bytes), (1, 3));
            return Ok(());
        }
    }
    Err("no place is free")?
}

fn dropped(notes: &WireNotes) -> Option<u64> {
    notes.backlog.map(|backlog| backlog.dropped)
}

// What comes after so long from a wire to which nothing is sent, if it can have the place.
fn await_end<C: Clock, N: Wire>(
    clock: &C,
    wire: &mut N,
    place: &str,
    alloc: Global,
) -> Result<Option<(Came, Duration)>, Fail> {
    let mut buf = vec![in alloc; 0; 65535]?;
    let start = Instant::now(clock)?;
    let Reached::Yes = wire.listen(place) else {
        return Ok(None);
    };
    let came = wire.recv(&mut buf);
    Ok(Some((came, start.elapsed(clock)?)))
}

#[test]
fn silence_ends_after_its_second_and_no_sooner(rt: HostRuntime) -> Result<(), Fail> {
    for place in PLACES {
        let start = Box::new(rt.alloc(), move |reader: Reader| reader.start(rt))?;
        let mut wire = LiveWire::new(rt, rt.alloc(), LIMITS, Launcher::new(start), None);
        wire.end_after(1);
        let came = await_end(&rt, &mut wire, place, rt.alloc());
        wire.stop();
        if let Some((came, after)) = came? {
            assert_eq!(rt; came, Came::End);
            assert!(rt; after >= Duration::from_secs(1));
            return Ok(());
        }
    }
    Err("no place is free")?
}

#[test]
fn a_wire_ends_after_its_seconds_and_no_sooner(rt: HostRuntime) -> Result<(), Fail> {
    let counts = RunCounts::new();
    counts.tell_frames(2);
    let limits = Limits {
        seconds: 1,
        frames: 3,
        ..LIMITS
    };
    for place in PLACES {
        let start = Box::new(rt.alloc(), move |reader: Reader| reader.start(rt))?;
        let mut wire = LiveWire::new(rt, rt.alloc(), limits, Launcher::new(start), Some(&counts));
        let came = await_end(&rt, &mut wire, place, rt.alloc());
        wire.stop();
        if let Some((came, after)) = came? {
            assert_eq!(rt; came, Came::End);
            assert!(rt; after >= Duration::from_secs(1));
            return Ok(());
        }
    }
    Err("no place is free")?
}

#[test]
fn a_wire_ends_once_its_frames_are_written(rt: HostRuntime) -> Result<(), Fail> {
    let counts = RunCounts::new();
    counts.tell_frames(3);
    let limits = Limits {
        seconds: 60,
        frames: 3,
        ..LIMITS
    };
    for place in PLACES {
        let start = Box::new(rt.alloc(), move |reader: Reader| reader.start(rt))?;
        let mut wire = LiveWire::new(rt, rt.alloc(), limits, Launcher::new(start), Some(&counts));
        let came = await_end(&rt, &mut wire, place, rt.alloc());
        wire.stop();
        if let Some((came, after)) = came? {
            assert_eq!(rt; came, Came::End);
            assert!(rt; after < Duration::from_secs(60));
            return Ok(());
        }
    }
    Err("no place is free")?
}
