ghost use Rattle.std.specs.Prelude.{◌≡◌, ◌≤◌, length, vec_len, IfSome};
ghost use Rattle.link_net.specs.Fitting.{Fits};

use crate::launcher::Launcher;
use crate::live_wire::Limits;
use crate::notes::BacklogNotes;
use crate::reader::{Reader, Shared};
use crate::socket_buffer::widen;
use rtrb::{Consumer, RingBuffer};
use std::alloc::Global;
use std::io;
use std::net::{Net, UdpSocket};
use std::sync::atomic::Ordering;
use std::sync::{Arc, Wait};
use std::thread::{JoinHandle, Threads};
use std::time::{Clock, Duration, Instant};

// How long it waits for a datagram before it looks for how long none was kept.
const LOOK_MILLIS: u64 = 100;

/// What came to a socket.
#[derive(Clone, Copy)]
pub enum Arrival {
    /// A datagram of so many bytes stands at the front of the buffer.
    Datagram(usize),
    /// None was kept for too long, or it has listened for as long as it was to.
    Silence,
    /// The reader ended.
    Failed(io::Error),
}

/// For how long a datagram is waited for.
#[derive(Clone, Copy)]
pub struct Patience {
    /// For how long none has to be kept, and when the last one was.
    pub silence: Option<Duration>,
    pub kept: Option<Instant>,
    /// For how long it listens, whatever comes, and since when.
    pub whole: Option<Duration>,
    pub begun: Option<Instant>,
}

/// What came to a socket and wasn't taken, which a thread of its own reads in.
pub struct Backlog {
    ring: Consumer<u8>,
    shared: Arc<Shared>,
    handle: JoinHandle<()>,
    // How many bytes the system's own buffer has.
    system: Option<u32>,
}

impl Backlog {
    /// Listens at the address, with as much room as the limits say, and with as many of the bytes asked for
    /// as the system gives its own buffer.
    pub fn start<H: Net>(
        rt: &H,
        alloc: Global,
        at: &str,
        limits: Limits,
        launcher: &Launcher,
    ) -> io::Result<Backlog> {
        let socket = UdpSocket::bind(rt, at)?;
        socket.set_nonblocking(true)?;
        let system = widen(&socket, limits.system);
        let (end, ring) = RingBuffer::new(alloc, limits.room)?;
        let shared = Arc::new(alloc, Shared::new())?;
        let reader = Reader {
            socket,
            ring: end,
            shared: Arc::try_clone(&shared)?,
            buf: vec![in alloc; 0u8; 65537]?,
        };
        let handle = launcher.launch(reader)?;
        Ok(Backlog {
            ring,
            shared,
            handle,
            system,
        })
    }

    /// The next datagram, if one came.
    fn next(&mut self, buf: &mut [u8]) -> Option<usize>
        requires room { length buf.old ≡ 65535 }
        ensures length { length buf.new ≡ length buf.old }
        ensures fits { IfSome result (λ count. count ≤ 65535) }
    {
        let mut count = [0; 2];
        self.ring.pop_entire_slice(&mut count).ok()?;
        let count = usize::from(u16::from_ne_bytes(count));
        self.ring.pop_entire_slice(&mut buf[..count]).ok()?;
        Some(count)
    }

    /// Waits for the next datagram, until none was kept for so long. What came counts before how long that
    /// took: a receiver that was held up has all of it to take. Once it has listened for as long as it was
    /// to, what came and wasn't taken is left.
    pub fn await_next<H: Wait + Clock>(
        &mut self,
        rt: &H,
        buf: &mut [u8],
        patience: Patience,
    ) -> Arrival
        requires room { length buf.old ≡ 65535 }
        ensures length { length buf.new ≡ length buf.old }
        ensures fits { Fits result }
    {
        for _ in rt.forever() {
            if is_over(rt, patience.whole, patience.begun) {
                return Arrival::Silence;
            }
            // Asked for first: what the reader put in before it failed is taken all the same.
            let failure = self.failure();
            if let Some(count) = self.next(buf) {
                return Arrival::Datagram(count);
            }
            if let Some(error) = failure {
                return Arrival::Failed(error);
            }
            if is_over(rt, patience.silence, patience.kept) {
                return Arrival::Silence;
            }
            self.shared
                .bell
                .park_timeout(rt, Duration::from_millis(LOOK_MILLIS));
        }
        unreachable!()
    }

    /// How many datagrams found no room so far.
    pub fn dropped(&self) -> u64 {
        self.shared.dropped.load(Ordering::SeqCst)
    }

    // The error by which the reader ended, if it did.
    fn failure(&self) -> Option<io::Error> {
        if self.shared.has_failed.load(Ordering::SeqCst) {
            Some(error_of(self.shared.code.load(Ordering::SeqCst)))
        } else {
            None
        }
    }

    /// Ends the thread, waits until it has, and says how what came was kept.
    pub fn stop<H: Threads>(self, rt: &H) -> BacklogNotes {
        let Backlog {
            ring: _,
            shared,
            handle,
            system,
        } = self;
        shared.is_over.store(true, Ordering::SeqCst);
        handle.join(rt);
        BacklogNotes {
            dropped: shared.dropped.load(Ordering::SeqCst),
            system,
        }
    }
}

// Whether so much time is gone since then. Never where the clock can't be read.
fn is_over<C: Clock>(clock: &C, most: Option<Duration>, since: Option<Instant>) -> bool {
    match (most, since) {
        (Some(most), Some(since)) => match since.elapsed(clock) {
            Ok(gone) => gone >= most,
            Err(_) => false,
        },
        _ => false,
    }
}

fn error_of(code: u64) -> io::Error {
    match i32::try_from(code) {
        Ok(code) => io::Error::from_raw_os_error(code),
        Err(_) => io::Error::from(io::ErrorKind::Other),
    }
}
