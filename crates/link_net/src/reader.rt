ghost use Rattle.std.specs.Prelude.{◌≡◌, length, vec_len};

use libc::net::{POLLIN, poll};
use libc::types::pollfd;
use rtrb::Producer;
use std::io::ErrorKind;
use std::net::UdpSocket;
use std::os::fd::AsRawFd;
use std::sync::atomic::{AtomicBool, AtomicU64, Ordering};
use std::sync::{Arc, Wait};
use std::thread::{JoinHandle, Parker, Threads};
use std::{io, thread};

// How long the reader waits for a datagram before it looks whether it is to end.
const LOOK_MILLIS: i32 = 100;

// After how many datagrams the wire is woken, where more keep coming.
const MOST_UNRUNG: u32 = 64;

/// What the reader's thread and the wire share.
#[derive(Drop)]
pub(crate) struct Shared {
    // Where the wire waits.
    pub(crate) bell: Parker,
    // Set once the reader is to end.
    pub(crate) is_over: AtomicBool,
    // Set once the reader has ended by itself, after `code` was.
    pub(crate) has_failed: AtomicBool,
    // The number of the error that it ended by, or 0.
    pub(crate) code: AtomicU64,
    // How many datagrams found no room.
    pub(crate) dropped: AtomicU64,
}

impl Shared {
    pub(crate) fn new() -> Shared {
        Shared {
            bell: Parker::new(),
            is_over: AtomicBool::new(false),
            has_failed: AtomicBool::new(false),
            code: AtomicU64::new(0),
            dropped: AtomicU64::new(0),
        }
    }
}

/// What a reader's thread is to do: it receives until it is to end. Each datagram goes into the ring after
/// its length, or is dropped where the ring has no room for all of it.
#[derive(Drop)]
pub struct Reader {
    pub(crate) socket: UdpSocket,
    pub(crate) ring: Producer<u8>,
    pub(crate) shared: Arc<Shared>,
    pub(crate) buf: Vec<u8>,
    ghost room: { vec_len buf ≡ 65537 },
}

impl Reader {
    /// Starts in a thread of its own, if one can be had.
    pub fn start<H: Threads + Wait + Copy + Send + Sync + 'static>(
        self,
        rt: H,
    ) -> io::Result<JoinHandle<()>> {
        Ok(thread::spawn(&rt, move || read(&rt, self))?)
    }
}

fn read<H: Wait>(rt: &H, reader: Reader) {
    let Reader {
        socket,
        mut ring,
        shared,
        mut buf,
    } = reader;
    let buf = buf.as_mut_slice();
    // How many came since the bell rang.
    let mut unrung = 0u32;
    for _ in rt.forever() {
        if shared.is_over.load(Ordering::SeqCst) {
            return;
        }
        match receive(&socket, buf) {
            Ok(entry) => {
                if ring.push_entire_slice(entry).is_err() {
                    shared.dropped.fetch_add(1, Ordering::SeqCst);
                }
                unrung = unrung.saturating_add(1);
                if unrung >= MOST_UNRUNG {
                    unrung = 0;
                    shared.bell.unpark();
                }
            }
            Err(error) if is_pause(&error) => {
                if unrung > 0 {
                    unrung = 0;
                    shared.bell.unpark();
                }
                await_more(&socket);
            }
            Err(error) => {
                let code = error.raw_os_error().unwrap_or(0);
                shared
                    .code
                    .store(u64::from(code.unsigned_abs()), Ordering::SeqCst);
                shared.has_failed.store(true, Ordering::SeqCst);
                shared.bell.unpark();
                return;
            }
        }
    }
}

// Waits until something can be received, for at most 100 ms.
fn await_more(socket: &UdpSocket) {
    let mut asked = [pollfd {
        fd: socket.as_raw_fd(),
        events: POLLIN,
        revents: 0,
    }];
    poll(&mut asked, LOOK_MILLIS);
}

// A datagram after its length.
fn receive<'a>(socket: &UdpSocket, buf: &'a mut [u8]) -> io::Result<&'a [u8]>
    requires room { length buf.old ≡ 65537 }
{
    let count = socket.recv(&mut buf[2..])?;
    buf[..2].copy_from_slice(&(count as u16).to_ne_bytes());
    Ok(&buf[..count + 2])
}

// Whether more may come though nothing could be received now.
fn is_pause(error: &io::Error) -> bool {
    matches!(
        error.kind(),
        ErrorKind::WouldBlock
            | ErrorKind::TimedOut
            | ErrorKind::Interrupted
            | ErrorKind::ConnectionRefused
    )
}
