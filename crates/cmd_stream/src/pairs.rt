ghost use Rattle.std.specs.Prelude.{◌≡◌};
ghost use Rattle.std.specs.Option.{option_map};
ghost use Rattle.cmd_stream.specs.PlaySteps.{waits};
ghost use Rattle.cmd_stream.specs.Stream.{is_pair};
ghost use Rattle.cmd_stream.specs.PlayViews.{picture_of};

use crate::picture::Picture;

/// Whether two pictures that follow one another are the fields of one frame.
pub(crate) fn is_pair(earlier: &Picture, later: &Picture) -> bool
    ensures { result ≡ is_pair (picture_of earlier.now) (picture_of later.now) }
{
    earlier.number % 2 == 0 && later.number == earlier.number + 1
}

/// The picture, if it may be the earlier field of a frame.
pub(crate) fn waits(picture: Picture) -> Option<Picture>
    ensures { option_map picture_of result ≡ waits (picture_of picture) }
{
    if picture.number % 2 == 0 {
        Some(picture)
    } else {
        None
    }
}
