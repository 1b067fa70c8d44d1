use std::alloc::Global;
use std::io;
use std::io::{Read, Write};

/// The first bytes of a stream, as many as are to be kept. Where there is no memory they are fewer.
#[derive(Drop)]
pub(crate) struct Beginning {
    bytes: Vec<u8>,
    most: usize,
}

impl Beginning {
    pub(crate) fn new(alloc: Global, most: usize) -> Beginning {
        Beginning {
            bytes: Vec::new(alloc),
            most,
        }
    }

    pub(crate) fn bytes(&self) -> &[u8] {
        &self.bytes
    }

    // Keeps what a stream gave or took next.
    fn keep(&mut self, bytes: &[u8], count: usize) {
        let room = self.most.saturating_sub(self.bytes.len());
        if let Some(part) = bytes.get(..room.min(count)) {
            let _ = self.bytes.extend_from_slice(part);
        }
    }
}

/// A stream of which it is kept how it begins.
#[derive(Drop)]
pub(crate) struct Kept<'a, S> {
    stream: S,
    beginning: &'a mut Beginning,
}

impl<'a, S> Kept<'a, S> {
    pub(crate) fn new(stream: S, beginning: &'a mut Beginning) -> Kept<'a, S> {
        Kept { stream, beginning }
    }
}

impl<'a, S: Read> Read for Kept<'a, S> {
    fn read(&mut self, buf: &mut [u8]) -> io::Result<usize> {
        let answer = self.stream.read(buf);
        if let Ok(count) = &answer {
            self.beginning.keep(buf, *count);
        }
        answer
    }
}

impl<'a, S: Write> Write for Kept<'a, S> {
    fn write(&mut self, buf: &[u8]) -> io::Result<usize> {
        let answer = self.stream.write(buf);
        if let Ok(count) = &answer {
            self.beginning.keep(buf, *count);
        }
        answer
    }

    fn flush(&mut self) -> io::Result<()> {
        self.stream.flush()
    }
}
