ghost use Rattle.std.specs.Prelude.{◌≡◌, ◌+◌, ◌-◌, ◌^◌, ◌<◌, ◌≤◌, ◌&&◌, if◌then◌else◌, IfOk, OnOk};
ghost use Rattle.std.specs.Prelude.{OnErr, Ok, Some, None, true, false, length, map};
ghost use Rattle.std.specs.Option.{option_copied, option_map};
ghost use Rattle.link_model.specs.Books.{book_of, book_outcome};
ghost use Rattle.link_model.specs.Judgement.{fragment_outcome};
ghost use Rattle.link_model.specs.Numbers as numbers;
ghost use Rattle.link_model.specs.Numbers.{is_opened, parts_of};
ghost use Rattle.link_model.specs.Windows as windows;
ghost use Rattle.link_model.specs.Windows.{WindowPast, StandsForPast};
ghost use Rattle.link_gather.specs.NewSlices.{brought_slices};
ghost use Rattle.link_gather.specs.Views.{new_slice_of};
ghost use Rattle.link_window.specs.Views.{sent_part, sent_fragment, releasable_of};
ghost use Rattle.vc_types.specs.SequenceHeader.{sequence_of};

use crate::books::{book_of_number, take_part};
use crate::fragment::{Fragment, Part};
use crate::numbering::{base_above, nearest};
use crate::picture::OpenPicture;
use crate::progress::Progress;
use link_gather::{PictureBook, Taken};
use link_model::Outcome;
use std::alloc::Global;
use std::marker::Model;
use vc_types::{Header, NoMemory};

// Numbers from here on are late.
const LIMIT: u128 = (1 << 64) - 16;

/// A picture that may be released, and whether it is complete.
#[derive(Clone, Copy)]
pub struct Released {
    pub number: u64,
    pub complete: bool,
}

/// The pictures of a session that fragments open, of which so many may be open at a time. After
/// `NoMemory` nothing is promised of it.
#[derive(Drop)]
pub struct Window {
    alloc: Global,
    header: Header,
    progress: Progress,
    /// Whether no fragment has entered yet.
    is_new: bool,
    /// In rising order.
    pictures: Vec<OpenPicture>,
}

impl Model for Window {
    ghost use Rattle.std.specs.Prelude.{◌-◌, ◌<◌, ◌^◌};
    ghost use Rattle.link_model.specs.Windows as windows;
    ghost use Rattle.vc_types.specs.SequenceHeader.{sequence_of};

    ghost Value = { windows.Window };

    ghost view = { λ w. record {
      sequence = sequence_of w.header;
      size = w.progress.size;
      top = w.progress.top;
      is_new = w.is_new;
      last_released = w.progress.last_released;
      is_ended = w.progress.is_ended;
      books = w.pictures.items;
    } };

    ghost invariant = { λ w. w.progress.top < 2 ^ 64 - 16 };
}

impl Window {
    /// The window of the first session, of a size from 2 to 8.
    pub fn new(alloc: Global, h: Header, w: u8) -> Window
        requires least { 2 ≤ w }
        requires most { w ≤ 8 }
        ensures value { result ≡ windows.new_window (sequence_of h) w 0 }
        ensures stands { StandsForPast result (windows.new_past (sequence_of h) w 0) }
    {
        Window::after(alloc, h, w, 0)
    }

    /// The window of a session behind others whose greatest number is this.
    pub fn after(alloc: Global, h: Header, w: u8, greatest: u64) -> Window
        requires least { 2 ≤ w }
        requires most { w ≤ 8 }
        requires fits { greatest < 2 ^ 64 - 16 }
        ensures value { result ≡ windows.new_window (sequence_of h) w greatest }
        ensures stands { StandsForPast result (windows.new_past (sequence_of h) w greatest) }
    {
        Window {
            alloc,
            header: h,
            progress: Progress {
                size: w,
                top: greatest,
                last_released: None,
                is_ended: false,
            },
            is_new: true,
            pictures: Vec::new(alloc),
        }
    }

    /// Takes a fragment into its picture's book, unless it comes too late. A late fragment changes
    /// nothing and takes no memory.
    pub fn enter(&mut self, f: Fragment) -> Result<Outcome, NoMemory>
        requires { self.old.is_ended ≡ false }
        ensures outcome { IfOk result (λ outcome. outcome
            ≡ windows.window_outcome self.old (sent_fragment f)) }
        ensures value { OnOk result (self.new ≡ windows.window_enters self.old (sent_fragment f)) }
        ensures late { windows.late_in self.old (windows.number_by self.old f.number) ≡ true
            → result ≡ Ok Outcome.Late }
        ensures running { OnOk result (self.new.is_ended ≡ false) }
        // By what came before.
        ensures judged { (p : WindowPast) → StandsForPast self.old p
            → let base = numbers.base_above p.before in IfOk result (λ outcome. outcome
            ≡ fragment_outcome base p.size p.sequence p.entries (sent_fragment f)) }
        ensures stands { (p : WindowPast) → StandsForPast self.old p
            → OnOk result (StandsForPast self.new (windows.past_enters p (sent_fragment f))) }
    {
        self.entered(f)
    }

    #[tactic(auto, unfolding(link_model::specs::Windows::window_enters, link_model::specs::Windows::window_outcome,))]
    fn entered(&mut self, f: Fragment) -> Result<Outcome, NoMemory>
        ensures outcome { IfOk result (λ outcome. outcome
            ≡ windows.window_outcome self.old (sent_fragment f)) }
        ensures value { OnOk result (self.new ≡ windows.window_enters self.old (sent_fragment f)) }
        ensures late { windows.late_in self.old (windows.number_by self.old f.number) ≡ true
            → result ≡ Ok Outcome.Late }
    {
        let Some(number) = self.number_of(f.number) else {
            return Ok(Outcome::Late);
        };
        let taken = self.keep(number, f.part)?;
        Ok(taken.outcome)
    }

    /// Takes a part into the book of a picture whose number isn't late, and answers the slices that
    /// are new. Without memory for it the window begins anew.
    pub(crate) fn keep(&mut self, number: u64, part: Part) -> Result<Taken, NoMemory>
        requires { number < 2 ^ 64 - 16 }
        ensures outcome { IfOk result (λ taken. taken.outcome
            ≡ book_outcome (windows.book_in self.old number) (sent_part part)) }
        ensures slices { IfOk result (λ taken. map new_slice_of taken.slices.items
            ≡ brought_slices (windows.book_in self.old number) (sent_part part)) }
        ensures value { OnOk result (self.new ≡ windows.rises_to
            (windows.opens_picture self.old number (sent_part part)) number) }
        ensures lost { OnErr result (self.new
            ≡ windows.new_window self.old.sequence self.old.size self.old.top) }
    {
        match take_part(self.alloc, self.header, &mut self.pictures, number, part) {
            Ok(taken) => {
                self.is_new = false;
                self.rise_to(number);
                Ok(taken)
            }
            Err(e) => {
                self.begin_anew();
                Err(e)
            }
        }
    }

    fn begin_anew(&mut self)
        ensures { self.new ≡ windows.new_window self.old.sequence self.old.size self.old.top }
    {
        self.is_new = true;
        self.progress.last_released = None;
        self.progress.is_ended = false;
        self.pictures = Vec::new(self.alloc);
    }

    /// The number of the picture with these 32 bits, unless it is late.
    pub(crate) fn number_of(&self, bits: u32) -> Option<u64>
        ensures { let n = windows.number_by self.now bits in
            result ≡ (if windows.late_in self.now n then None else Some n) }
    {
        let number = if self.is_new {
            base_above(self.progress.top) + u128::from(bits)
        } else {
            nearest(self.progress.top, bits)
        };
        if self.progress.has_passed(number) || number >= LIMIT {
            None
        } else {
            Some(number as u64)
        }
    }

    // The greatest number is at least this, which may close pictures.
    fn rise_to(&mut self, number: u64)
        requires { number < 2 ^ 64 - 16 }
        ensures { self.new ≡ windows.rises_to self.old number }
    {
        if self.progress.top < number {
            self.progress.top = number;
            self.forget();
        }
    }

    // Lets the books of pictures go that are closed and released.
    fn forget(&mut self)
        ensures { self.new ≡ windows.forgets self.old }
    {
        let progress = self.progress;
        self.pictures
            .retain(|picture| !progress.is_gone(picture.number()));
    }

    /// The header of the session's sequence.
    pub(crate) fn header(&self) -> &Header
        ensures { sequence_of result.now ≡ self.now.sequence }
    {
        &self.header
    }

    /// The book of a picture that is opened, until the picture is both closed and released.
    pub fn book(&self, number: u64) -> Option<&PictureBook>
        ensures value { option_copied result ≡ windows.book_at self.now.books number }
        ensures opened { (p : WindowPast) → StandsForPast self.now p
            → option_copied result ≡ (if is_opened p.entries number && windows.is_needed p number
            then Some (book_of p.sequence (parts_of number p.entries)) else None) }
    {
        book_of_number(&self.pictures, number)
    }

    /// The least picture that is opened and not released, if it is closed or every picture that
    /// isn't closed is complete up to it.
    pub fn next_release(&self) -> Option<Released>
        ensures value { option_map releasable_of result ≡ windows.next_release self.now }
        ensures least { (p : WindowPast) → StandsForPast self.now p
            → let first = windows.first_of (windows.releasable_numbers p) in
            option_map releasable_of result ≡ option_map (windows.as_releasable p) first }
    {
        self.next()
    }

    #[tactic(auto, unfolding(link_model::specs::Windows::next_release))]
    fn next(&self) -> Option<Released>
        ensures { option_map releasable_of result ≡ windows.next_release self.now }
    {
        let picture = self.first_unreleased()?;
        if !self.is_let_go(picture.number()) {
            return None;
        }
        Some(Released {
            number: picture.number(),
            complete: picture.book().is_complete(),
        })
    }

    fn first_unreleased(&self) -> Option<&OpenPicture>
        ensures { option_copied result
            ≡ windows.first_unreleased self.now.last_released self.now.books }
    {
        for picture in &self.pictures {
            if !self.progress.is_released(picture.number()) {
                return Some(picture);
            }
        }
        None
    }

    pub(crate) fn is_released(&self, number: u64) -> bool
        ensures { result ≡ windows.released_up_to self.now.last_released number }
    {
        self.progress.is_released(number)
    }

    fn is_let_go(&self, number: u64) -> bool
        ensures { result ≡ windows.let_go_in self.now number }
    {
        if self.progress.is_ended {
            return true;
        }
        let first = (self.progress.top + 1).saturating_sub(u64::from(self.progress.size));
        for n in first..=number {
            if !self.is_complete(n) {
                return false;
            }
        }
        true
    }

    fn is_complete(&self, number: u64) -> bool
        ensures { result ≡ windows.complete_in self.now number }
    {
        match book_of_number(&self.pictures, number) {
            Some(book) => book.is_complete(),
            None => false,
        }
    }

    /// Releases the picture that `next_release` names.
    pub fn release(&mut self, number: u64)
        requires { option_map (λ r. r.number) (windows.next_release self.old) ≡ Some number }
        ensures value { self.new ≡ windows.releases self.old number }
        ensures stands { (p : WindowPast) → StandsForPast self.old p
            → StandsForPast self.new (windows.past_releases p number) }
    {
        self.progress.last_released = Some(number);
        self.forget();
    }

    /// Closes all pictures: the input has ended.
    pub fn finish(&mut self)
        ensures value { self.new ≡ windows.finishes self.old }
        ensures stands { (p : WindowPast) → StandsForPast self.old p
            → StandsForPast self.new (windows.past_finishes p) }
    {
        self.progress.is_ended = true;
        self.forget();
    }

    /// How many books are kept.
    pub fn open_pictures(&self) -> usize
        ensures { result ≡ length self.now.books }
    {
        self.pictures.len()
    }

    /// The greatest number of a fragment that wasn't late, or of the earlier sessions where there
    /// is none.
    pub fn greatest(&self) -> u64
        ensures { result ≡ self.now.top }
    {
        self.progress.top
    }
}
