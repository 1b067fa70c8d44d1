ghost use Rattle.std.specs.Prelude.{◌≡◌, ◌≤◌, IsTrue, None, Some};
ghost use Rattle.std.specs.Fn.{FnReturnsAt};
ghost use Rattle.std.specs.Option.{ForSome};
ghost use Rattle.link_model.specs.SendingPictures.{wants_lengths};
ghost use Rattle.picture_encode.specs.Choosing.{AnswersAtMost127};
ghost use Rattle.vc_types.specs.Settings.{choice_fits};

use vc_types::{IndexChoice, SliceNeed};

/// How the quantisation index of each slice is chosen: by a function of what is told of the slice, or as a
/// sender's settings say.
#[derive(Drop)]
pub struct Chooser<F> {
    pub(crate) wants_lens: bool,
    pub(crate) choose: F,
    // The choice of settings, for which the function isn't called.
    pub(crate) by: Option<IndexChoice>,
    ghost told: { ForSome by (λ choice. wants_lens ≡ wants_lengths choice) },
    ghost small: { ForSome by (λ choice. IsTrue (choice_fits choice)) },
}

impl<F: Fn(&SliceNeed) -> u8> Chooser<F> {
    /// A chooser by a function that may be called on every need and answers at most 127. If it
    /// wants lengths, it is told a slice's length at each index, else no lengths.
    pub fn new(wants_lens: bool, choose: F) -> Chooser<F>
        requires callable { F.IsAlwaysCallable choose }
        requires range { AnswersAtMost127 F.Fn choose }
        ensures wants { result.wants_lens ≡ wants_lens }
        ensures same { result.choose ≡ choose }
        ensures asks { result.by ≡ None }
    {
        Chooser {
            wants_lens,
            choose,
            by: None,
        }
    }

    /// A chooser whose indices are those of a choice that settings make. They are found without the lengths
    /// at all indices, and the function is never called.
    pub fn by(choice: IndexChoice, unasked: F) -> Chooser<F>
        requires fits { IsTrue (choice_fits choice) }
        ensures wants { result.wants_lens ≡ wants_lengths choice }
        ensures same { result.choose ≡ unasked }
        ensures by { result.by ≡ Some choice }
    {
        Chooser {
            wants_lens: wants_lengths(choice),
            choose: unasked,
            by: Some(choice),
        }
    }

    pub(crate) fn index(&self, need: &SliceNeed) -> u8
        requires callable { F.IsAlwaysCallable self.now.choose }
        requires range { AnswersAtMost127 F.Fn self.now.choose }
        ensures answer { FnReturnsAt F.Fn self.now.choose need.now result }
        ensures range { result ≤ 127 }
    {
        (self.choose)(need)
    }
}

// Whether a choice is made by the lengths of a slice.
fn wants_lengths(choice: IndexChoice) -> bool
    ensures { result ≡ wants_lengths choice }
{
    match choice {
        IndexChoice::Index(_) => false,
        IndexChoice::Fit(_) | IndexChoice::Budget(_) => true,
    }
}
