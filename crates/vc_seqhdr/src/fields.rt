ghost use Rattle.std.specs.Prelude.{◌≡◌, ◌≤◌, IfOk};
ghost use Rattle.vc_types.specs.Fields.{Gives, flag as flag_field};
ghost use Rattle.vc_types.specs.SequenceHeader.{header_number, index};

use vc_bits::BitReader;
use vc_golomb::{UintRefusal, read_uint};
use vc_types::HeaderRefusal;

/// The next number.
#[tactic(auto, unfolding(vc_types::specs::SequenceHeader::header_number, vc_types::specs::Fields::number_up_to))]
pub fn number(r: &mut BitReader) -> Result<u32, HeaderRefusal>
    ensures { Gives (λ n. n) result r.new.left (header_number r.old.left) }
{
    match read_uint(r, u32::MAX) {
        Ok(number) => Ok(number),
        Err(UintRefusal::End) => Err(HeaderRefusal::Short),
        Err(UintRefusal::TooLarge) => Err(HeaderRefusal::TooLarge),
    }
}

/// The next number, which is at most a limit.
pub fn index(r: &mut BitReader, limit: u32, refusal: HeaderRefusal) -> Result<u32, HeaderRefusal>
    ensures gives { Gives (λ n. n) result r.new.left (index limit refusal r.old.left) }
    ensures small { IfOk result (λ n. n ≤ limit) }
{
    let number = number(r)?;
    if number > limit {
        return Err(refusal);
    }
    Ok(number)
}

/// The flag of the part that follows.
pub fn flag(r: &mut BitReader) -> Result<bool, HeaderRefusal>
    ensures { Gives (λ b. b) result r.new.left (flag_field HeaderRefusal.Short r.old.left) }
{
    match r.bit() {
        Ok(bit) => Ok(bit),
        Err(_) => Err(HeaderRefusal::Short),
    }
}
