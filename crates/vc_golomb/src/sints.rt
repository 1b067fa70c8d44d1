ghost use Rattle.std.specs.Prelude.{◌≡◌, ◌+◌, ◌^◌, ◌<◌, ◌≤◌, ℕ, length, pos, slice_index_or, unsigned_abs};
ghost use Rattle.std.specs.Prelude.{IfOk, OnOk, OnErr};
ghost use Rattle.vc_types.specs.Bounded.{bounded_sint, bounded_sints};
ghost use Rattle.vc_types.specs.Lifting.{line_of};
ghost use Rattle.vc_golomb.specs.Numbers.{number_at, HasLarge};

use crate::rows::row_of;
use crate::sint::{TooLarge, read_sint_bounded};
use vc_bits::Block;

// Numbers are read whose magnitudes are at most this.
const MOST: u64 = (1 << 30) - 1;

// None in a row of the table has a greater magnitude.
const MOST_OF_ROW: u32 = 128;

/// Reads the next `count` numbers of a block into the front of `out`, which must have room for eight more.
/// Returns a bound on their magnitudes, or `TooLarge` if any magnitude is 2^30 or more. The contents of `out`
/// after those numbers are unspecified, because several numbers are read at once.
pub fn read_sints(block: &Block, count: usize, out: &mut [i32]) -> Result<u32, TooLarge>
    requires room { count + 8 ≤ length out.old }
    ensures numbers { OnOk result ((i : ℕ) → i < count
        → line_of out.new i ≡ line_of (bounded_sints count block.now) i) }
    ensures most { IfOk result
        (λ most. (i : ℕ) → i < count → unsigned_abs (line_of out.new i) ≤ most) }
    ensures too_large { OnErr result (HasLarge count block.now) }
{
    sints(block, count, out)
}

fn sints(block: &Block, count: usize, out: &mut [i32]) -> Result<u32, TooLarge>
    requires room { count + 8 ≤ length out.old }
    ensures numbers { OnOk result ((i : ℕ) → i < count
        → line_of out.new i ≡ number_at block.now i) }
    ensures most { IfOk result
        (λ most. (i : ℕ) → i < count → unsigned_abs (line_of out.new i) ≤ most) }
    ensures too_large { OnErr result ((i : ℕ) × (i < count)
        × (2 ^ 30 ≤ unsigned_abs (number_at block.now i))) }
{
    // What is left of a block that is a variable here stays in registers.
    let mut left = block.copy();
    let mut most = MOST_OF_ROW;
    let mut done = 0;
    'numbers: while done < count {
        let row = read_row(&mut left, out, done);
        if row > 0 {
            done += row;
        } else {
            most = most.max(read_long(&mut left, out, done)?);
            done += 1;
        }
    }
    Ok(most)
}

// Puts the next numbers of a block that have short codes into a slice from a place on, and says how many:
// none where the next one has a long code.
#[inline(always)]
fn read_row(block: &mut Block, out: &mut [i32], at: usize) -> usize
    requires { at + 8 ≤ length out.old }
    ensures few { result ≤ 8 }
    ensures on { (j : ℕ) → j < result → line_of out.new (at + j) ≡ number_at block.old j }
    ensures off { (i : ℕ) → i < at → line_of out.new i ≡ line_of out.old i }
    ensures small { (j : ℕ) → j < result → unsigned_abs (line_of out.new (at + j)) ≤ 128 }
    ensures rest { (k : ℕ) → number_at block.old (result + k) ≡ number_at block.new k }
{
    let row = row_of(block.peek_twelve());
    if row.count > 0 {
        put_eight(out, at, row.values);
        block.skip(row.bits);
    }
    row.count
}

// Puts the next number of a block into a place, and gives its magnitude.
#[inline(always)]
fn read_long(block: &mut Block, out: &mut [i32], at: usize) -> Result<u32, TooLarge>
    requires { at < length out.old }
    ensures on { OnOk result (line_of out.new at ≡ number_at block.old 0) }
    ensures off { (i : ℕ) → i < at → line_of out.new i ≡ line_of out.old i }
    ensures most { IfOk result (λ most. unsigned_abs (line_of out.new at) ≤ most) }
    ensures rest { OnOk result
        ((k : ℕ) → number_at block.old (1 + k) ≡ number_at block.new k) }
    ensures too_large { OnErr result (2 ^ 30 ≤ unsigned_abs (number_at block.old 0)) }
{
    // It is read apart, so that what the block has stays in registers.
    let mut apart = block.copy();
    let number = read_apart(&mut apart)?;
    *block = apart;
    out[at] = number as i32;
    Ok(number.unsigned_abs() as u32)
}

#[inline(never)]
fn read_apart(block: &mut Block) -> Result<i64, TooLarge>
    ensures value { IfOk result (λ v. v ≡ (bounded_sint block.old).0) }
    ensures small { IfOk result (λ v. unsigned_abs v < 2 ^ 30) }
    ensures rest { block.new ≡ (bounded_sint block.old).1 }
    ensures too_large { OnErr result (2 ^ 30 ≤ unsigned_abs (number_at block.old 0)) }
{
    read_sint_bounded(block, MOST)
}

#[inline(always)]
fn put_eight(out: &mut [i32], at: usize, values: &[i8])
    requires room { at + 8 ≤ length out.old }
    requires eight { length values.now ≡ 8 }
    ensures on { (j : ℕ) → j < 8 → line_of out.new (at + j) ≡ line_of values.now j }
    ensures off { (i : ℕ) → i < at → line_of out.new i ≡ line_of out.old i }
    ensures small { (j : ℕ) → j < 8 → unsigned_abs (line_of out.new (at + j)) ≤ 128 }
{
    for j in 0..8usize {
        out[at + j] = i32::from(values[j]);
    }
}
