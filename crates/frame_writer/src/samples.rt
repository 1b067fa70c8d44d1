ghost use Rattle.std.specs.Prelude.{◌≡◌, length};
ghost use Rattle.frame_writer.specs.FrameBytes.{samples_of_bytes};
ghost use Rattle.frame_writer.specs.Samples.{byte_count};

use byteorder::{ByteOrder, LittleEndian};

/// Fills samples from their bytes, of which they have two or one each.
pub(crate) fn take_samples(samples: &mut [u16], bytes: &[u8], two: bool)
    requires { length bytes.now ≡ byte_count two samples.old }
    ensures { samples.new ≡ samples_of_bytes two bytes.now }
{
    if two {
        LittleEndian::read_u16_into(bytes, samples);
    } else {
        for (i, byte) in bytes.iter().enumerate() {
            samples[i] = u16::from(*byte);
        }
    }
}
