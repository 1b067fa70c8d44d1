ghost use Rattle.std.specs.Prelude.{◌≡◌, ◌^◌, ◌<◌, IfOk, OnErr, true, unsigned_abs};
ghost use Rattle.vc_types.specs.Bounded.{bounded_sint};
ghost use Rattle.vc_types.specs.Quantisation.{dequantised};
ghost use Rattle.vc_types.specs.Slices.{is_large};
ghost use Rattle.vc_lowdelay.specs.Components.{IsBehind};
ghost use Rattle.vc_lowdelay.specs.Placed.{place_of_number, read_at};

use crate::refusal::LargeValue;
use vc_bits::Block;
use vc_golomb::read_sint_bounded;
use vc_quant::Quantiser;
use vc_types::Component;

/// The coefficient that the next number of a block stands for, unless it is large.
pub(crate) fn next_value(block: &mut Block, quantiser: &Quantiser) -> Result<i64, LargeValue>
    ensures value { IfOk result
        (λ z. z ≡ dequantised (bounded_sint block.old).0 quantiser.now.index) }
    ensures small { IfOk result (λ z. unsigned_abs z < 2 ^ 60) }
    ensures large { OnErr result
        (is_large (dequantised (bounded_sint block.old).0 quantiser.now.index) ≡ true) }
    ensures rest { block.new ≡ (bounded_sint block.old).1 }
{
    match read_sint_bounded(block, (1 << 60) - 1) {
        Ok(number) => not_large(quantiser.dequant(number)),
        Err(_) => Err(LargeValue),
    }
}

/// The coefficient of a component at the next place of its block, unless it is large. Of the colours' block
/// C1 and then C2 have a number at each place.
#[tactic(auto, unfolding(vc_golomb::specs::Numbers::number_at))]
pub(crate) fn next_of(
    block: &mut Block,
    c: Component,
    quantiser: &Quantiser,
) -> Result<i64, LargeValue>
    ensures value { IfOk result
        (λ z. z ≡ read_at block.old quantiser.now.index (place_of_number c 0)) }
    ensures small { IfOk result (λ z. unsigned_abs z < 2 ^ 60) }
    ensures large { OnErr result
        (is_large (read_at block.old quantiser.now.index (place_of_number c 0)) ≡ true) }
    ensures rest { IsBehind c 1 block.old block.new }
{
    match c {
        Component::Y => next_value(block, quantiser),
        Component::C1 => {
            let value = next_value(block, quantiser);
            skip_number(block);
            value
        }
        Component::C2 => {
            skip_number(block);
            next_value(block, quantiser)
        }
    }
}

// Goes on behind the next number.
fn skip_number(block: &mut Block)
    ensures { block.new ≡ (bounded_sint block.old).1 }
{
    let _any = read_sint_bounded(block, 0);
}

// The coefficient, unless its magnitude is 2^60 or more.
fn not_large(coefficient: i128) -> Result<i64, LargeValue>
    ensures value { IfOk result (λ z. z ≡ coefficient) }
    ensures small { IfOk result (λ z. unsigned_abs z < 2 ^ 60) }
    ensures large { OnErr result (is_large coefficient ≡ true) }
{
    if coefficient.unsigned_abs() >= 1 << 60 {
        return Err(LargeValue);
    }
    Ok(coefficient as i64)
}
