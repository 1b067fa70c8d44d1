//! The three standard streams of the system, by their descriptors 0, 1 and 2.

use libc::net::{POLLIN, POLLNVAL, POLLOUT, poll};
use libc::types::pollfd;
use libc::{O_RDONLY, O_WRONLY};
use std::io;
use std::io::{Read, Write};

// For so many milliseconds is a stream waited for at a time.
const WAIT: i32 = 1_000;

/// Takes the numbers of the streams that are closed, so that no socket gets them. What has such a number
/// can't be read, if it is 0, or written, if it is 1 or 2.
pub(crate) fn hold_closed() {
    hold(0, O_WRONLY);
    hold(1, O_RDONLY);
    hold(2, O_RDONLY);
}

fn hold(number: i32, flags: i32) {
    if events_of(number, 0, 0) & POLLNVAL == 0 {
        return;
    }
    // The lowest number that is free.
    let taken = os::open_with(b"/dev/null", flags, 0);
    if taken != number && taken >= 0 {
        libc::close(taken);
    }
}

// What can be done with a descriptor, or came of it, once it can be, or after so many milliseconds.
fn events_of(number: i32, events: i16, millis: i32) -> i16 {
    let mut asked = [pollfd {
        fd: number,
        events,
        revents: 0,
    }];
    poll(&mut asked, millis);
    asked[0].revents
}

/// Reads a stream that may answer that nothing came yet, and waits until something did.
#[derive(Drop)]
pub(crate) struct Awaited<S> {
    stream: S,
    number: i32,
}

impl<S> Awaited<S> {
    /// The stream with this descriptor.
    pub(crate) fn new(stream: S, number: i32) -> Awaited<S> {
        Awaited { stream, number }
    }
}

impl<S: Read> Read for Awaited<S> {
    fn read(&mut self, buf: &mut [u8]) -> io::Result<usize> {
        for _ in 0..u64::MAX {
            match self.stream.read(buf) {
                Err(error) if error.kind() == io::ErrorKind::WouldBlock => {
                    events_of(self.number, POLLIN, WAIT);
                }
                answer => return answer,
            }
        }
        Err(io::Error::from(io::ErrorKind::WouldBlock))
    }
}

impl<S: Write> Write for Awaited<S> {
    fn write(&mut self, buf: &[u8]) -> io::Result<usize> {
        for _ in 0..u64::MAX {
            match self.stream.write(buf) {
                Err(error) if error.kind() == io::ErrorKind::WouldBlock => {
                    events_of(self.number, POLLOUT, WAIT);
                }
                answer => return answer,
            }
        }
        Err(io::Error::from(io::ErrorKind::WouldBlock))
    }

    fn flush(&mut self) -> io::Result<()> {
        self.stream.flush()
    }
}
