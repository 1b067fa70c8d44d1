ghost use Rattle.std.specs.Prelude.{◌≡◌, ◌*◌, ◌^◌, ◌<◌, ◌≤◌, Err, length};
ghost use Rattle.frame_writer.specs.Taking.{Takes};
ghost use Rattle.frame_writer.specs.declared.taking.TheConstants.{PIECE};
ghost use Rattle.vc_ports.specs.Faults.{HasCause};

use crate::bytes::byte_count;
use crate::samples::take_samples;
use vc_ports::{Filled, Source, fill};

/// How many samples come in in one piece at most, so that it has at most 65,536 bytes, which one read of a
/// source can give and which stay in the cache until they are samples.
pub(crate) const PIECE: usize = 32_768;

/// Why not all samples of a plane were taken.
#[derive(Clone, Copy)]
pub(crate) enum Short {
    /// The source ended when so many of their bytes had come.
    End(usize),
    /// A read failed.
    Failed,
}

/// Takes the samples of a plane, in place of those that are there, piece by piece, by means of a buffer of
/// two bytes for each sample of a piece.
pub(crate) fn take_plane<S: Source>(
    source: &mut S,
    buffer: &mut [u8],
    samples: &mut [u16],
    two: bool,
) -> Result<(), Short>
    requires buffer { 2 * PIECE ≤ length buffer.old }
    requires small { length samples.old < 2 ^ 62 }
    ensures bytes { Takes two (length samples.old)
        (S.left source.old) (S.left source.new) samples.new result }
    ensures cause { HasCause (S.faults source.old) (S.faults source.new) (result ≡ Err Short.Failed) }
{
    let mut at = 0;
    'pieces: while at < samples.len() {
        let (_, rest) = samples.split_at_mut(at);
        let (next, _) = rest.split_at_mut(rest.len().min(PIECE));
        let (piece, _) = buffer.split_at_mut(byte_count(next.len(), two));
        match fill(source, piece) {
            Filled::Whole => take_samples(next, piece, two),
            Filled::End(len) => return Err(Short::End(byte_count(at, two) + len)),
            Filled::Failed(_) => return Err(Short::Failed),
        }
        at += next.len();
    }
    Ok(())
}
