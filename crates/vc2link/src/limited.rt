use std::io;
use std::io::Read;

/// Reads no more than so many bytes of a stream, which ends then, if there is a number.
#[derive(Drop)]
pub(crate) struct Limited<S> {
    pub(crate) stream: S,
    pub(crate) left: Option<u64>,
}

impl<S: Read> Read for Limited<S> {
    fn read(&mut self, buf: &mut [u8]) -> io::Result<usize> {
        let Some(left) = self.left else {
            return self.stream.read(buf);
        };
        let room = usize::try_from(left).unwrap_or(usize::MAX).min(buf.len());
        if room == 0 {
            return Ok(0);
        }
        let count = self.stream.read(&mut buf[..room])?;
        self.left = Some(left.saturating_sub(count as u64));
        Ok(count)
    }
}
