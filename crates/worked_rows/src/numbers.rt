use std::alloc::Global;
use worked_common::{Bad, range_of};

/// What a row's number is: that of the call that fails, or how many bytes there are of the input, or may
/// be of the output.
#[derive(Drop, Clone, Copy, PartialEq, Eq)]
pub(crate) enum Each {
    Once,
    Read,
    Write,
    Report,
    Wire,
    Cut,
    Room,
}

/// The numbers that a row is run at, one after another.
#[derive(Drop, Clone, Copy)]
pub(crate) struct Numbers {
    pub(crate) each: Each,
    pub(crate) first: u64,
    pub(crate) last: u64,
}

/// One of them.
#[derive(Drop, Clone, Copy)]
pub(crate) struct Number {
    each: Each,
    number: u64,
}

impl Numbers {
    /// For a row that is run once.
    pub(crate) fn once() -> Numbers {
        Numbers {
            each: Each::Once,
            first: 0,
            last: 0,
        }
    }

    /// Those of a text, as `read 1..8`.
    pub(crate) fn parse(text: &str) -> Result<Numbers, Bad> {
        let Some((kind, range)) = text.split_once(' ') else {
            return Err(Bad::NoRow);
        };
        let each = match kind {
            "read" => Each::Read,
            "write" => Each::Write,
            "report" => Each::Report,
            "wire" => Each::Wire,
            "cut" => Each::Cut,
            "room" => Each::Room,
            _ => return Err(Bad::NoRow),
        };
        let (first, last) = range_of(range)?;
        Ok(Numbers { each, first, last })
    }

    pub(crate) fn at(self, number: u64) -> Number {
        Number {
            each: self.each,
            number,
        }
    }
}

impl Number {
    /// The number of the call that fails, if it is of this kind.
    pub(crate) fn fails(self, alloc: Global, each: Each) -> Result<Vec<u64>, Bad> {
        let mut fails = Vec::new(alloc);
        if self.each == each {
            fails.push(self.number)?;
        }
        Ok(fails)
    }

    /// The number of bytes, if it is of this kind.
    pub(crate) fn bytes(self, each: Each) -> Option<usize> {
        if self.each == each {
            return usize::try_from(self.number).ok();
        }
        None
    }
}
