ghost use Rattle.std.specs.Prelude.{◌≡◌, ◌<◌, ◌≤◌, ◌+◌, ◌^◌, IfOk, length, take, drop};
ghost use Rattle.vc_types.specs.Lifting.{line_of};
ghost use Rattle.vc_types.specs.Slices.{coefficients_of};
ghost use Rattle.vc_slice.specs.Listed.{listed};
ghost use Rattle.vc_slice.specs.OneBlock.{in_block, three_parts};

use std::alloc::Global;
use std::marker::Model;
use vc_types::{Component, NoMemory};

/// The coefficients of a component, in 32 or in 64 bits.
#[derive(Clone, Copy)]
pub enum CoefficientList<'a> {
    Narrow(&'a [i32]),
    Wide(&'a [i64]),
}

impl<'a> CoefficientList<'a> {
    /// How many coefficients there are.
    pub fn len(&self) -> usize
        ensures { result ≡ length (listed self.now) }
    {
        match self {
            CoefficientList::Narrow(numbers) => numbers.len(),
            CoefficientList::Wide(numbers) => numbers.len(),
        }
    }

    /// The coefficient in this place.
    #[inline(always)]
    pub fn get(&self, place: usize) -> i64
        requires { place < length (listed self.now) }
        ensures { result ≡ line_of (listed self.now) place }
    {
        match self {
            CoefficientList::Narrow(numbers) => narrow_at(numbers, place),
            CoefficientList::Wide(numbers) => wide_at(numbers, place),
        }
    }

    /// The first so many coefficients, and those behind them.
    pub fn split_at(&self, count: usize) -> (CoefficientList<'a>, CoefficientList<'a>)
        requires { count ≤ length (listed self.now) }
        ensures front { listed result.0 ≡ take count (listed self.now) }
        ensures front_len { length (listed result.0) ≡ count }
        ensures back { listed result.1 ≡ drop count (listed self.now) }
    {
        match self {
            CoefficientList::Narrow(numbers) => {
                let (front, back) = numbers.split_at(count);
                (
                    CoefficientList::Narrow(front),
                    CoefficientList::Narrow(back),
                )
            }
            CoefficientList::Wide(numbers) => {
                let (front, back) = numbers.split_at(count);
                (CoefficientList::Wide(front), CoefficientList::Wide(back))
            }
        }
    }
}

#[inline(always)]
fn narrow_at(numbers: &[i32], place: usize) -> i64
    requires { place < length numbers.now }
    ensures { result ≡ line_of numbers.now place }
{
    i64::from(numbers[place])
}

#[inline(always)]
fn wide_at(numbers: &[i64], place: usize) -> i64
    requires { place < length numbers.now }
    ensures { result ≡ line_of numbers.now place }
{
    numbers[place]
}

// The coefficients of three components, one behind the other.
#[derive(Drop)]
enum CoefficientBlock {
    Narrow(Vec<i32>),
    Wide(Vec<i64>),
}

impl CoefficientBlock {
    // So many coefficients, from one of them on.
    fn part(&self, from: usize, count: usize) -> CoefficientList<'_>
        requires { from + count ≤ length (in_block self.now) }
        ensures { listed result ≡ take count (drop from (in_block self.now)) }
    {
        match self {
            CoefficientBlock::Narrow(numbers) => {
                CoefficientList::Narrow(&numbers[from..from + count])
            }
            CoefficientBlock::Wide(numbers) => CoefficientList::Wide(&numbers[from..from + count]),
        }
    }

    fn copy(&self, alloc: Global) -> Result<CoefficientBlock, NoMemory>
        ensures { IfOk result (λ copy. in_block copy ≡ in_block self.now) }
    {
        Ok(match self {
            CoefficientBlock::Narrow(numbers) => {
                CoefficientBlock::Narrow(Vec::from_slice(alloc, numbers)?)
            }
            CoefficientBlock::Wide(numbers) => {
                CoefficientBlock::Wide(Vec::from_slice(alloc, numbers)?)
            }
        })
    }
}

/// The coefficients of a slice: of each component the subbands in order, LL first, and in each the slice's
/// rectangle row by row. Contracts see three lists.
#[derive(Drop)]
pub struct SliceCoeffs {
    block: CoefficientBlock,
    y: usize,
    c1: usize,
    c2: usize,
}

impl Model for SliceCoeffs {
    ghost use Rattle.std.specs.Prelude.{◌≤◌, ◌+◌, length};
    ghost use Rattle.vc_types.specs.Slices.{Coefficients};
    ghost use Rattle.vc_slice.specs.OneBlock.{in_block, three_parts};

    ghost Value = { Coefficients };

    ghost view = { λ s. three_parts s.y s.c1 s.c2 (in_block s.block) };

    ghost invariant = { λ s. s.y + s.c1 + s.c2 ≤ length (in_block s.block) };
}

impl SliceCoeffs {
    /// So many coefficients of each component, each in the slice's order, one component behind the other.
    /// There may be more numbers behind them.
    pub fn narrow(numbers: Vec<i32>, y: usize, c1: usize, c2: usize) -> SliceCoeffs
        requires { y + c1 + c2 ≤ length numbers.items }
        ensures { result ≡ three_parts y c1 c2 numbers.items }
    {
        SliceCoeffs {
            block: CoefficientBlock::Narrow(numbers),
            y,
            c1,
            c2,
        }
    }

    /// The same, of numbers that may not fit 32 bits.
    pub fn wide(numbers: Vec<i64>, y: usize, c1: usize, c2: usize) -> SliceCoeffs
        requires { y + c1 + c2 ≤ length numbers.items }
        ensures { result ≡ three_parts y c1 c2 numbers.items }
    {
        SliceCoeffs {
            block: CoefficientBlock::Wide(numbers),
            y,
            c1,
            c2,
        }
    }

    /// The coefficients in three lists, each in the slice's order.
    pub fn joined(alloc: Global, y: &[i64], c1: &[i64], c2: &[i64]) -> Result<SliceCoeffs, NoMemory>
        ensures { IfOk result (λ s. s ≡ record { y = y.now; c1 = c1.now; c2 = c2.now }) }
    {
        let mut numbers = Vec::with_capacity(alloc, y.len() + c1.len() + c2.len())?;
        numbers.extend_from_slice(y)?;
        numbers.extend_from_slice(c1)?;
        numbers.extend_from_slice(c2)?;
        Ok(SliceCoeffs::wide(numbers, y.len(), c1.len(), c2.len()))
    }

    /// The same coefficients.
    pub fn copy(&self, alloc: Global) -> Result<SliceCoeffs, NoMemory>
        ensures { IfOk result (λ copy. copy ≡ self.now) }
    {
        Ok(SliceCoeffs {
            block: self.block.copy(alloc)?,
            y: self.y,
            c1: self.c1,
            c2: self.c2,
        })
    }

    /// The memory of coefficients in 32 bits that are done with, and else none.
    pub fn into_room(self, alloc: Global) -> Vec<i32> {
        match self.block {
            CoefficientBlock::Narrow(numbers) => numbers,
            CoefficientBlock::Wide(_numbers) => Vec::new(alloc),
        }
    }

    /// The coefficients of a component, in the slice's order.
    pub fn component(&self, c: Component) -> CoefficientList<'_>
        ensures value { listed result ≡ coefficients_of self.now c }
        ensures range { length (listed result) < 2 ^ 64 }
    {
        match c {
            Component::Y => self.block.part(0, self.y),
            Component::C1 => self.block.part(self.y, self.c1),
            Component::C2 => self.block.part(self.y + self.c1, self.c2),
        }
    }
}
