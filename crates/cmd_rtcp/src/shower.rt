ghost use Rattle.std.specs.Prelude.{⊤, refl};
ghost use Rattle.cmd_rtcp.specs.ShowingLaws.{all_shown, more_shown};
ghost use Rattle.cmd_rtcp.specs.Showing.{due_text};

use crate::piece::Piece;
use crate::scribe::Scribe;
use crate::text::shown_lines;
use std::alloc::Global;
use vc_types::NoMemory;

/// Shows each datagram as lines of text.
#[derive(Drop)]
pub(crate) struct Shower {
    pub(crate) alloc: Global,
}

impl Scribe for Shower {
    ghost has_heard = { λ _ _ _. ⊤ };

    ghost has_ended = { λ _ _ _. ⊤ };

    ghost due = { λ _. due_text };

    fn take(&mut self, datagram: &[u8]) -> Result<Piece, NoMemory> {
        match shown_lines(self.alloc, datagram) {
            Ok(text) => Ok(Piece::Text(text)),
            Err(fault) => Err(fault),
        }
    }

    fn end(&mut self) -> Result<Piece, NoMemory> {
        Ok(Piece::Nothing)
    }

    ghost none = { λ _. refl };

    ghost more = { λ _ heard datagram. more_shown heard datagram };

    ghost all = { λ _ heard. all_shown heard };
}
