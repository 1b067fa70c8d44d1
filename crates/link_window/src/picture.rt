ghost use Rattle.std.specs.Prelude.{◌≡◌, [], IfOk, OnOk, map};
ghost use Rattle.link_model.specs.Books.{book_of, book_takes, book_outcome};
ghost use Rattle.link_model.specs.Windows.{with_number};
ghost use Rattle.link_gather.specs.NewSlices.{new_slices};
ghost use Rattle.link_gather.specs.Views.{new_slice_of};
ghost use Rattle.link_window.specs.Views.{sent_part};
ghost use Rattle.vc_types.specs.SequenceHeader.{sequence_of};

use crate::fragment::Part;
use link_gather::{PictureBook, Taken};
use std::alloc::Global;
use std::marker::Model;
use vc_types::{Header, NoMemory};

/// A picture that was opened: its number and its book.
#[derive(Drop)]
pub(crate) struct OpenPicture {
    number: u64,
    book: PictureBook,
}

impl Model for OpenPicture {
    ghost use Rattle.link_model.specs.Windows.{NumberedBook};

    ghost Value = { NumberedBook };

    ghost view = { λ p. record { number = p.number; book = p.book } };
}

impl OpenPicture {
    pub(crate) fn new(alloc: Global, h: Header, number: u64) -> OpenPicture
        ensures { result ≡ with_number number (book_of (sequence_of h) []) }
    {
        OpenPicture {
            number,
            book: PictureBook::new(alloc, h),
        }
    }

    pub(crate) fn number(&self) -> u64
        ensures { result ≡ self.now.number }
    {
        self.number
    }

    pub(crate) fn book(&self) -> &PictureBook
        ensures { result.now ≡ self.now.book }
    {
        &self.book
    }

    pub(crate) fn take(&mut self, part: Part) -> Result<Taken, NoMemory>
        ensures outcome { IfOk result (λ taken. taken.outcome
            ≡ book_outcome self.old.book (sent_part part)) }
        ensures value { OnOk result (self.new
            ≡ with_number self.old.number (book_takes self.old.book (sent_part part))) }
        ensures slices { IfOk result (λ taken. map new_slice_of taken.slices.items
            ≡ new_slices self.old.book self.new.book) }
    {
        match part {
            Part::Params(body) => self.book.enter_params(body),
            Part::Slices(slices) => self.book.enter_slices(slices),
        }
    }
}
