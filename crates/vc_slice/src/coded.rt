ghost use Rattle.std.specs.Prelude.{◌≡◌, ◌*◌, ◌↔◌, MatchOption, None, Some, Ok, Err};
ghost use Rattle.std.specs.Prelude.{IfOk, IfSome, IsErr, length, ◌≤◌};
ghost use Rattle.vc_types.specs.Slices.{block, coded_slice, slice_length};
ghost use Rattle.vc_slice.specs.Coded.{coded_of};

use vc_types::Short;

/// The bytes of a slice: its quantisation index and the blocks of its three components.
#[derive(Clone, Copy)]
pub struct CodedSlice<'a> {
    pub index: u8,
    pub y: &'a [u8],
    pub c1: &'a [u8],
    pub c2: &'a [u8],
}

/// The length of the slice that begins the bytes, prefix bytes included (ST 2042-1, high-quality slice).
#[tactic(auto, unfolding(vc_types::specs::Slices::slice_length))]
pub fn cut(prefix: u32, scaler: u32, bytes: &[u8]) -> Result<usize, Short>
    ensures value { IfOk result (λ len. slice_length prefix scaler bytes.now ≡ Some len) }
    ensures short_exactly { IsErr result ↔ (slice_length prefix scaler bytes.now ≡ None) }
{
    match coded_slice(prefix, scaler, bytes) {
        Some((_, rest)) => Ok(bytes.len() - rest.len()),
        None => Err(Short),
    }
}

/// The parts of the slice that begins the bytes, and what is behind it; none where the bytes end before.
#[tactic(auto, unfolding(vc_types::specs::Slices::coded_slice))]
pub fn coded_slice(prefix: u32, scaler: u32, bytes: &[u8]) -> Option<(CodedSlice<'_>, &[u8])>
    ensures value { MatchOption result (IsErr (coded_slice prefix scaler bytes.now))
        (λ x. coded_slice prefix scaler bytes.now ≡ Ok (coded_of x.0, x.1.now)) }
    ensures rest { IfSome result (λ x. length x.1.now ≤ length bytes.now) }
{
    let prefix = prefix as usize;
    if bytes.len() < prefix {
        return None;
    }
    let (_, rest) = bytes.split_at(prefix);
    let (index, rest) = rest.split_first()?;
    let (y, rest) = block(scaler, rest)?;
    let (c1, rest) = block(scaler, rest)?;
    let (c2, rest) = block(scaler, rest)?;
    Some((
        CodedSlice {
            index: *index,
            y,
            c1,
            c2,
        },
        rest,
    ))
}

// A block behind its length, and what is behind the block.
#[tactic(auto, unfolding(vc_types::specs::Slices::block))]
fn block(scaler: u32, bytes: &[u8]) -> Option<(&[u8], &[u8])>
    ensures value { MatchOption result (IsErr (block scaler bytes.now))
        (λ x. block scaler bytes.now ≡ Ok (x.0.now, x.1.now)) }
    ensures rest { IfSome result (λ x. length x.1.now ≤ length bytes.now) }
{
    let (units, rest) = bytes.split_first()?;
    let len = usize::from(*units) * scaler as usize;
    if rest.len() < len {
        return None;
    }
    Some(rest.split_at(len))
}
