ghost use Rattle.std.specs.Prelude.{◌≡◌, ◌<◌, length};
ghost use Rattle.link_words.specs.Settings.{given, is_given};
ghost use Rattle.link_words.specs.declared.options.Name.{Name};

use crate::lookup::{given, is_given};
use crate::options::Name;
use vc_types::Words;

/// How many seconds there are from one line that says how far a command is to the next; 0: there is none. No
/// setting of a command depends on it.
pub fn progress_of(words: &Words) -> u32
    requires { 0 < length words.now }
    ensures { result ≡ given words.now Name.Progress }
{
    given(words, Name::Progress)
}

/// Whether the words say so themselves.
pub fn says_progress(words: &Words) -> bool
    requires { 0 < length words.now }
    ensures { result ≡ is_given words.now Name.Progress }
{
    is_given(words, Name::Progress)
}

/// With how many frames an input ends; 0: with all that it has. No setting of a command depends on it.
pub fn first_of(words: &Words) -> u32
    requires { 0 < length words.now }
    ensures { result ≡ given words.now Name.First }
{
    given(words, Name::First)
}

/// After how many frames that were written a wire listens no longer; 0: it goes on.
pub fn written_of(words: &Words) -> u32
    requires { 0 < length words.now }
    ensures { result ≡ given words.now Name.Written }
{
    given(words, Name::Written)
}

/// After how many seconds a wire listens no longer; 0: it goes on. No setting of a command depends on it: a
/// wire that tells nothing may end at any time.
pub fn seconds_of(words: &Words) -> u32
    requires { 0 < length words.now }
    ensures { result ≡ given words.now Name.Seconds }
{
    given(words, Name::Seconds)
}
