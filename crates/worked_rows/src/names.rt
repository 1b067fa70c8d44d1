use std::alloc::Global;
use worked_common::{Bad, NamedBytes, put};

/// What the lines of a file named so far.
#[derive(Drop)]
pub(crate) struct Names {
    pub(crate) parts: Vec<NamedBytes>,
    /// The names of a tally's lines, in order.
    pub(crate) counts: String,
}

impl Names {
    pub(crate) fn new(alloc: Global) -> Names {
        Names {
            parts: Vec::new(alloc),
            counts: String::new(alloc),
        }
    }

    /// Gives bytes a name, which no others have.
    pub(crate) fn add(&mut self, alloc: Global, name: &str, bytes: Vec<u8>) -> Result<(), Bad> {
        if self.parts.iter().any(|part| part.name.as_str() == name) {
            return Err(Bad::NoRow);
        }
        let name = String::from_str(alloc, name)?;
        self.parts.push(NamedBytes { name, bytes })?;
        Ok(())
    }

    /// Names the lines of a tally.
    pub(crate) fn set_counts(&mut self, alloc: Global, text: &str) -> Result<(), Bad> {
        self.counts = String::from_str(alloc, text)?;
        Ok(())
    }

    /// Adds a part of a line, as `header 00000000 70F063C080`.
    pub(crate) fn add_part(&mut self, alloc: Global, text: &str) -> Result<(), Bad> {
        let Some((name, rest)) = text.split_once(' ') else {
            return Err(Bad::NoRow);
        };
        let mut bytes = Vec::new(alloc);
        put(alloc, self.parts.as_slice(), rest, &mut bytes)?;
        self.add(alloc, name, bytes)
    }
}
