ghost use Rattle.std.specs.Prelude.{◌≡◌, [], ◌++◌, OnOk};
ghost use Rattle.std.specs.String.{string_bytes};

use std::alloc::Global;
use std::marker::Model;
use vc_types::NoMemory;

/// A text, of which contracts see the bytes.
#[derive(Drop)]
pub(crate) struct Line {
    text: String,
}

impl Model for Line {
    ghost use Rattle.std.specs.Prelude.{ℕ, List};
    ghost use Rattle.std.specs.String.{string_bytes};

    ghost Value = { List ℕ };

    ghost view = { λ line. string_bytes line.text };
}

impl Line {
    pub(crate) fn empty(alloc: Global) -> Line
        ensures { result ≡ [] }
    {
        Line {
            text: String::new(alloc),
        }
    }

    pub(crate) fn of(text: String) -> Line
        ensures { result ≡ string_bytes text }
    {
        Line { text }
    }

    pub(crate) fn as_str(&self) -> &str
        ensures { result.now ≡ self.now }
    {
        self.text.as_str()
    }

    /// Appends a text.
    pub(crate) fn append(&mut self, more: &str) -> Result<(), NoMemory>
        ensures { OnOk result (self.new ≡ self.old ++ more.now) }
    {
        self.text.push_str(more)?;
        Ok(())
    }
}
