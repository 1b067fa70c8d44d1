ghost use Rattle.std.specs.Prelude.{◌≡◌};
ghost use Rattle.vc_types.specs.Fields.{Gives, flag as flag_field};
ghost use Rattle.vc_types.specs.TransformParameters.{number};

use vc_bits::BitReader;
use vc_golomb::{UintRefusal, read_uint};
use vc_types::ParamsRefusal;

/// The next number.
#[tactic(auto, unfolding(vc_types::specs::TransformParameters::number, vc_types::specs::Fields::number_up_to))]
pub fn number(r: &mut BitReader) -> Result<u32, ParamsRefusal>
    ensures { Gives (λ n. n) result r.new.left (number r.old.left) }
{
    match read_uint(r, u32::MAX) {
        Ok(number) => Ok(number),
        Err(UintRefusal::End) => Err(ParamsRefusal::Short),
        Err(UintRefusal::TooLarge) => Err(ParamsRefusal::TooLarge),
    }
}

/// The flag of the part that follows.
pub fn flag(r: &mut BitReader) -> Result<bool, ParamsRefusal>
    ensures { Gives (λ b. b) result r.new.left (flag_field ParamsRefusal.Short r.old.left) }
{
    match r.bit() {
        Ok(bit) => Ok(bit),
        Err(_) => Err(ParamsRefusal::Short),
    }
}
