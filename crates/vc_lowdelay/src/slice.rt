ghost use Rattle.std.specs.Prelude.{◌≡◌, ◌+◌, ◌*◌, ◌^◌, ◌<◌, ◌≤◌, length, take, drop};
ghost use Rattle.vc_types.specs.Bits.{number_of};
ghost use Rattle.vc_lowdelay.specs.LowDelay.{length_bits};

use vc_bits::{BitReader, Block};

/// A low-delay slice (ST 2042-1, low-delay slices): its quantisation index, and the blocks of luma and of
/// both colour components.
#[derive(Drop)]
pub(crate) struct LowSlice<'a> {
    pub(crate) index: u8,
    pub(crate) luma: Block<'a>,
    pub(crate) colour: Block<'a>,
    pub(crate) ghost index_is_known: { index ≤ 127 },
}

impl<'a> LowSlice<'a> {
    ghost use Rattle.vc_lowdelay.specs.Coded.{slice_of};
    ghost use Rattle.vc_lowdelay.specs.LowDelay.{low_slice};

    /// The slice of which these are all bytes.
    pub(crate) fn new(bytes: &'a [u8]) -> LowSlice<'a>
        requires some { 1 ≤ length bytes.now }
        requires few { length bytes.now ≤ 2 ^ 16 }
        ensures { slice_of result ≡ low_slice bytes.now }
    {
        let mut bits = BitReader::new(bytes);
        let index = number(&mut bits, 7) as u8;
        let count = length_bits(bytes.len() as u32);
        let luma_length = number(&mut bits, count) as usize;
        let left = bits.bits_left() as usize;
        let luma = block(&mut bits, luma_length.min(left));
        let colour = block(&mut bits, left.saturating_sub(luma_length));
        LowSlice {
            index,
            luma,
            colour,
        }
    }
}

// How many bits say how long the luma block is, in a slice of so many bytes.
fn length_bits(bytes: u32) -> u32
    requires { (1 ≤ bytes) × (bytes ≤ 2 ^ 16) }
    ensures value { result ≡ length_bits bytes }
    ensures few { result ≤ 19 }
    ensures room { 7 + result ≤ 8 * bytes }
{
    match 8 * bytes - 8 {
        0 => 0,
        most => most.ilog2() + 1,
    }
}

// The number that the next bits make, where as many are left.
fn number(bits: &mut BitReader, count: u32) -> u32
    requires few { count ≤ 32 }
    requires left { count ≤ length bits.old.left }
    ensures value { result ≡ number_of (take count bits.old.left) }
    ensures range { result < 2 ^ count }
    ensures left { bits.new.left ≡ drop count bits.old.left }
{
    match bits.bits(count) {
        Ok(number) => number,
        Err(_) => unreachable!(),
    }
}

// The next bits as a block, where as many are left.
fn block<'a>(bits: &mut BitReader<'a>, count: usize) -> Block<'a>
    requires { count ≤ length bits.old.left }
    ensures value { result ≡ take count bits.old.left }
    ensures left { bits.new.left ≡ drop count bits.old.left }
{
    match bits.block_bits(count) {
        Ok(block) => block,
        Err(_) => unreachable!(),
    }
}
