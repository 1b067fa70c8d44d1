ghost use Rattle.std.specs.Prelude.{◌≡◌, ◌<◌, ◌≤◌, ◌^◌, ◌++◌, true, replicate, unsigned_abs, OnOk, OnErr};
ghost use Rattle.vc_types.specs.Codes.{uint_bits, sint_bits};
ghost use Rattle.vc_golomb.specs.Short.{IsShort};
ghost use Rattle.vc_golomb.specs.Writing.{WroteFront};

use crate::short::{behind_ones, is_short, short_code};
use vc_bits::BitWriter;
use vc_types::NoMemory;

/// Adds the unsigned code of a number. Where memory runs out, a front of the code stands there.
pub fn write_uint(w: &mut BitWriter, v: u64) -> Result<(), NoMemory>
    requires { v < 2 ^ 62 }
    ensures ok { OnOk result (w.new ≡ w.old ++ uint_bits v) }
    ensures front { OnErr result (WroteFront (uint_bits v) w.old w.new) }
{
    let number = v + 1;
    let mut place = number.ilog2();
    'digits: while place > 0 {
        place -= 1;
        w.bit(false)?;
        w.bit((number >> place) % 2 == 1)?;
    }
    w.bit(true)
}

/// Adds the signed code of a number. Where memory runs out, a front of the code stands there.
#[inline]
pub fn write_sint(w: &mut BitWriter, v: i64) -> Result<(), NoMemory>
    requires { unsigned_abs v < 2 ^ 62 }
    ensures ok { OnOk result (w.new ≡ w.old ++ sint_bits v) }
    ensures front { OnErr result (WroteFront (sint_bits v) w.old w.new) }
{
    if is_short(v) {
        write_short(w, v)
    } else {
        write_long(w, v)
    }
}

/// Adds so many codes of 0, and the code of a number behind them.
#[inline]
pub fn write_behind_zeros(w: &mut BitWriter, zeros: u64, v: i64) -> Result<(), NoMemory>
    requires { unsigned_abs v < 2 ^ 62 }
    ensures { OnOk result (w.new ≡ w.old ++ replicate zeros true ++ sint_bits v) }
{
    if zeros <= 14 && is_short(v) {
        write_run(w, zeros as u32, v)
    } else {
        w.repeat(true, zeros)?;
        write_sint(w, v)
    }
}

// The same of few zeros and a small number, at once.
#[inline(always)]
fn write_run(w: &mut BitWriter, zeros: u32, v: i64) -> Result<(), NoMemory>
    requires zeros { zeros ≤ 14 }
    requires number { IsShort v }
    ensures { OnOk result (w.new ≡ w.old ++ replicate zeros true ++ sint_bits v) }
{
    let run = behind_ones(zeros, short_code(v));
    w.bits(run.bits, run.count)
}

#[inline(always)]
fn write_short(w: &mut BitWriter, v: i64) -> Result<(), NoMemory>
    requires { IsShort v }
    ensures ok { OnOk result (w.new ≡ w.old ++ sint_bits v) }
    ensures front { OnErr result (WroteFront (sint_bits v) w.old w.new) }
{
    let code = short_code(v);
    w.bits(code.bits, code.count)
}

#[inline(never)]
fn write_long(w: &mut BitWriter, v: i64) -> Result<(), NoMemory>
    requires { unsigned_abs v < 2 ^ 62 }
    ensures ok { OnOk result (w.new ≡ w.old ++ sint_bits v) }
    ensures front { OnErr result (WroteFront (sint_bits v) w.old w.new) }
{
    let magnitude = v.unsigned_abs();
    write_uint(w, magnitude)?;
    if magnitude == 0 {
        Ok(())
    } else {
        w.bit(v.is_negative())
    }
}
