//! What rows say.
use std::alloc::Global;
use std::fmt::{Debug, Display};
use worked_common::Bad;

/// What a row says, as text. Once memory ran out it takes no more.
#[derive(Drop)]
pub(crate) struct Said {
    alloc: Global,
    text: String,
    ran_out: bool,
}

impl Said {
    pub(crate) fn new(alloc: Global) -> Said {
        Said {
            alloc,
            text: String::new(alloc),
            ran_out: false,
        }
    }

    pub(crate) fn alloc(&self) -> Global {
        self.alloc
    }

    /// What `write!` calls.
    pub(crate) fn write_fmt<D: Display + Drop>(&mut self, text: D) {
        if !self.ran_out {
            self.ran_out = self.text.write_fmt(text).is_err();
        }
    }

    /// A word or a number, and a space.
    pub(crate) fn word<D: Display + Drop>(&mut self, word: D) {
        write!(self, "{word} ");
    }

    /// Words or numbers, with a space behind each.
    pub(crate) fn words<D: Display>(&mut self, words: &[D]) {
        for word in words {
            self.word(word);
        }
    }

    /// What a value is called, as a refusal.
    pub(crate) fn shown<D: Debug + Drop>(&mut self, value: D) {
        write!(self, "{value:?} ");
    }

    /// Numbers, each after its name.
    pub(crate) fn named(&mut self, numbers: &[(&str, u32)]) {
        for (name, number) in numbers {
            write!(self, "{name} {number} ");
        }
    }

    /// Bytes, each as two digits.
    pub(crate) fn bytes(&mut self, bytes: &[u8]) {
        for byte in bytes {
            write!(self, "{byte:02x} ");
        }
    }

    /// All of it, if there was memory for that.
    pub(crate) fn into_text(self) -> Result<String, Bad> {
        if self.ran_out {
            return Err(Bad::NoMemory);
        }
        Ok(self.text)
    }
}
