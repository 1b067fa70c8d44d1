ghost use Rattle.std.specs.Prelude.{◌≡◌, ◌*◌, ◌^◌, ◌<◌, false, length};
ghost use Rattle.vc_types.specs.RawFrames.{samples_bytes};
ghost use Rattle.frame_writer.specs.FrameBytes.{length_in};
ghost use Rattle.frame_writer.specs.Samples.{FitBytes, byte_count};

use byteorder::{ByteOrder, LittleEndian};

/// How many bytes so many samples have.
pub(crate) fn byte_count(samples: usize, two: bool) -> usize
    requires { 2 * samples < 2 ^ 64 }
    ensures { result ≡ length_in two samples }
{
    if two { 2 * samples } else { samples }
}

// Fills a buffer with the bytes of samples, which are below 256 where they have one each.
pub(crate) fn put_samples(buffer: &mut [u8], samples: &[u16], two: bool)
    requires room { length buffer.old ≡ byte_count two samples.now }
    requires narrow { (two ≡ false) → FitBytes samples.now }
    ensures { buffer.new ≡ samples_bytes two samples.now }
{
    if two {
        LittleEndian::write_u16_into(samples, buffer);
    } else {
        for (i, sample) in samples.iter().enumerate() {
            buffer[i] = *sample as u8;
        }
    }
}
