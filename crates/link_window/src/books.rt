ghost use Rattle.std.specs.Prelude.{◌≡◌, ◌≤◌, IfOk, OnOk, length, map, unwrap_or, []};
ghost use Rattle.std.specs.Option.{option_copied};
ghost use Rattle.link_model.specs.Books.{book_of, book_outcome};
ghost use Rattle.link_model.specs.Windows.{book_at, with_part};
ghost use Rattle.link_gather.specs.NewSlices.{brought_slices};
ghost use Rattle.link_gather.specs.Views.{new_slice_of};
ghost use Rattle.link_window.specs.Places.{number_place, with_book};
ghost use Rattle.link_window.specs.Views.{sent_part};
ghost use Rattle.vc_types.specs.SequenceHeader.{sequence_of};

use crate::fragment::Part;
use crate::picture::OpenPicture;
use link_gather::{PictureBook, Taken};
use std::alloc::Global;
use vc_types::{Header, NoMemory};

// How many pictures of lesser numbers come first.
fn place_of(pictures: &[OpenPicture], number: u64) -> usize
    ensures value { result ≡ number_place pictures.now number }
    ensures within { result ≤ length pictures.now }
{
    for (place, picture) in pictures.iter().enumerate() {
        if picture.number() >= number {
            return place;
        }
    }
    pictures.len()
}

/// The book of a picture, among pictures in rising order.
pub(crate) fn book_of_number(pictures: &[OpenPicture], number: u64) -> Option<&PictureBook>
    ensures { option_copied result ≡ book_at pictures.now number }
{
    let picture = pictures.get(place_of(pictures, number))?;
    if picture.number() == number {
        Some(picture.book())
    } else {
        None
    }
}

// Opens a picture that has no book, and answers the picture's place.
fn opened(
    alloc: Global,
    h: Header,
    pictures: &mut Vec<OpenPicture>,
    number: u64,
) -> Result<usize, NoMemory>
    ensures place { IfOk result (λ place. place ≡ number_place pictures.old.items number) }
    ensures value { OnOk result (pictures.new.items
        ≡ with_book (sequence_of h) pictures.old.items number) }
{
    let place = place_of(pictures, number);
    if book_of_number(pictures, number).is_none() {
        pictures.insert(place, OpenPicture::new(alloc, h, number))?;
    }
    Ok(place)
}

/// Takes a part into the picture's book, which is opened where it has none.
pub(crate) fn take_part(
    alloc: Global,
    h: Header,
    pictures: &mut Vec<OpenPicture>,
    number: u64,
    part: Part,
) -> Result<Taken, NoMemory>
    ensures outcome { let old = book_at pictures.old.items number in
        let book = unwrap_or old (book_of (sequence_of h) []) in
        IfOk result (λ taken. taken.outcome ≡ book_outcome book (sent_part part)) }
    ensures slices { let old = book_at pictures.old.items number in
        let book = unwrap_or old (book_of (sequence_of h) []) in
        IfOk result (λ taken. map new_slice_of taken.slices.items
        ≡ brought_slices book (sent_part part)) }
    ensures value { OnOk result (pictures.new.items
        ≡ with_part (sequence_of h) pictures.old.items number (sent_part part)) }
{
    let place = opened(alloc, h, pictures, number)?;
    pictures[place].take(part)
}
