ghost use Rattle.std.specs.Prelude.{◌≡◌, ◌+◌, ◌*◌, ◌<◌, ◌≤◌, ◌^◌, ◌++◌, true, length, replicate};
ghost use Rattle.std.specs.Prelude.{unsigned_abs, vec_len, vec_capacity, IfOk};
ghost use Rattle.std.specs.List.{flat_map};
ghost use Rattle.vc_types.specs.Bits.{bits_of};
ghost use Rattle.vc_types.specs.Codes.{sint_bits};
ghost use Rattle.vc_types.specs.Lifting.{line_of};
ghost use Rattle.vc_bits.specs.Bits.{to_edge, word_bits};
ghost use Rattle.vc_golomb.specs.Short.{IsShort};

use crate::short::{Code, code_behind, is_short, short_code};
use std::alloc::Global;
use vc_bits::BitTail;
use vc_types::NoMemory;

/// The signed codes of numbers, one after another, and ones up to a whole byte, in the memory of bytes that
/// are done with.
pub fn sint_codes(used: Vec<u8>, numbers: &[i32]) -> Result<Vec<u8>, NoMemory>
    requires { length numbers.now < 2 ^ 60 }
    ensures { IfOk result (λ bytes. bits_of bytes.items ≡ flat_map sint_bits numbers.now
        ++ replicate (to_edge (length (flat_map sint_bits numbers.now))) true) }
{
    let mut bytes = used;
    bytes.clear();
    // A code has 64 bits at most, and eight bytes are put behind the others at once.
    bytes.reserve(8 * numbers.len() + 8)?;
    let mut tail = BitTail::new();
    let mut at = 0;
    'triples: while numbers.len() - at >= 3 {
        if begins_triple(numbers, at) {
            add_triple(&mut bytes, &mut tail, numbers, at);
            at += 3;
        } else {
            add_code(&mut bytes, &mut tail, numbers[at]);
            at += 1;
        }
    }
    'last: while at < numbers.len() {
        add_code(&mut bytes, &mut tail, numbers[at]);
        at += 1;
    }
    tail.finish(&mut bytes, true);
    Ok(bytes)
}

// Whether the table has the codes of the three numbers from one of them on.
#[inline(always)]
fn begins_triple(numbers: &[i32], at: usize) -> bool
    requires { at + 3 ≤ length numbers.now }
    ensures first { result ≡ true → IsShort (line_of numbers.now at) }
    ensures second { result ≡ true → IsShort (line_of numbers.now (at + 1)) }
    ensures third { result ≡ true → IsShort (line_of numbers.now (at + 2)) }
{
    is_short_at(numbers, at) && is_short_at(numbers, at + 1) && is_short_at(numbers, at + 2)
}

#[inline(always)]
fn is_short_at(numbers: &[i32], at: usize) -> bool
    requires { at < length numbers.now }
    ensures { result ≡ true → IsShort (line_of numbers.now at) }
{
    is_short(i64::from(numbers[at]))
}

// The codes of the three numbers are added at once.
#[inline(always)]
fn add_triple(bytes: &mut Vec<u8>, tail: &mut BitTail, numbers: &[i32], at: usize)
    requires inside { at + 3 ≤ length numbers.now }
    requires first { IsShort (line_of numbers.now at) }
    requires second { IsShort (line_of numbers.now (at + 1)) }
    requires third { IsShort (line_of numbers.now (at + 2)) }
    requires room { 8 * vec_len bytes.old + length tail.old + 128 ≤ 8 * vec_capacity bytes.old }
    ensures bits { bits_of bytes.new.items ++ tail.new ≡ (bits_of bytes.old.items ++ tail.old)
        ++ ((sint_bits (line_of numbers.now at) ++ sint_bits (line_of numbers.now (at + 1)))
        ++ sint_bits (line_of numbers.now (at + 2))) }
    ensures len { 8 * vec_len bytes.new + length tail.new
        ≤ 8 * vec_len bytes.old + length tail.old + 64 }
    ensures capacity { vec_capacity bytes.new ≡ vec_capacity bytes.old }
{
    let first = short_code(i64::from(numbers[at]));
    let second = short_code(i64::from(numbers[at + 1]));
    let third = short_code(i64::from(numbers[at + 2]));
    let code = code_behind(code_behind(first, second), third);
    tail.add(bytes, code.bits, code.count);
}

#[inline(always)]
fn add_code(bytes: &mut Vec<u8>, tail: &mut BitTail, v: i32)
    requires room { 8 * vec_len bytes.old + length tail.old + 128 ≤ 8 * vec_capacity bytes.old }
    ensures bits { bits_of bytes.new.items ++ tail.new
        ≡ (bits_of bytes.old.items ++ tail.old) ++ sint_bits v }
    ensures len { 8 * vec_len bytes.new + length tail.new
        ≤ 8 * vec_len bytes.old + length tail.old + 64 }
    ensures capacity { vec_capacity bytes.new ≡ vec_capacity bytes.old }
{
    let number = i64::from(v);
    if is_short(number) {
        let code = short_code(number);
        tail.add(bytes, code.bits, code.count);
    } else {
        add_long(bytes, tail, long_code(v));
    }
}

// Adds a code of up to 64 bits.
#[inline(always)]
fn add_long(bytes: &mut Vec<u8>, tail: &mut BitTail, code: Code)
    requires count { code.count ≤ 64 }
    requires range { code.bits < 2 ^ code.count }
    requires room { 8 * vec_len bytes.old + length tail.old + 128 ≤ 8 * vec_capacity bytes.old }
    ensures bits { bits_of bytes.new.items ++ tail.new
        ≡ (bits_of bytes.old.items ++ tail.old) ++ word_bits code.count code.bits }
    ensures len { 8 * vec_len bytes.new + length tail.new
        ≡ 8 * vec_len bytes.old + length tail.old + code.count }
    ensures capacity { vec_capacity bytes.new ≡ vec_capacity bytes.old }
{
    if code.count > 32 {
        tail.add(bytes, code.bits >> 32, code.count - 32);
        tail.add(bytes, code.bits % (1 << 32), 32);
    } else {
        tail.add(bytes, code.bits, code.count);
    }
}

// The code of a number that isn't 0, put together digit by digit. It stands apart, so that there are
// registers for the loop over the others.
#[cold]
#[inline(never)]
fn long_code(v: i32) -> Code
    requires { 0 < unsigned_abs v }
    ensures value { word_bits result.count result.bits ≡ sint_bits v }
    ensures count { result.count ≤ 64 }
    ensures range { result.bits < 2 ^ result.count }
{
    let number = v.unsigned_abs() + 1;
    let digits = number.ilog2();
    let mut code = 0u64;
    let mut place = digits;
    'digits: while place > 0 {
        place -= 1;
        code = code * 4 + u64::from((number >> place) % 2);
    }
    let end = 2 + u64::from(v.is_negative());
    Code {
        bits: code * 4 + end,
        count: 2 * digits + 2,
    }
}
