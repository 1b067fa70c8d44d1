ghost use Rattle.std.specs.Prelude.{◌≡◌, ◌≤◌};
ghost use Rattle.vc_types.specs.Settings.{luma_fits, first_picture_fits};
ghost use Rattle.vc_types.specs.Settings.{default_across, default_down, can_be_sent};

use vc_types::{padded, picture_height, slices_fit};

pub(crate) fn luma_fits(width: u32, height: u32, fields: bool, depth: u8) -> bool
    requires width { width ≤ 8192 }
    requires height { height ≤ 8192 }
    requires few_levels { depth ≤ 5 }
    ensures { result ≡ luma_fits width height fields depth }
{
    padded(width, depth) * padded(picture_height(fields, height), depth) <= 8912896
}

pub(crate) fn first_picture_fits(fields: bool, picture: u32) -> bool
    ensures { result ≡ first_picture_fits fields picture }
{
    !fields || picture % 2 == 0
}

pub(crate) fn default_across(width: u32) -> u32
    requires { width ≤ 8192 }
    ensures { result ≡ default_across width }
{
    (width + 15) / 16
}

pub(crate) fn default_down(fields: bool, height: u32) -> u32
    requires { height ≤ 8192 }
    ensures { result ≡ default_down fields height }
{
    (picture_height(fields, height) + 7) / 8
}

pub(crate) fn can_be_sent(width: u32, height: u32, fields: bool) -> bool
    requires width { width ≤ 8192 }
    requires height { height ≤ 8192 }
    ensures { result ≡ can_be_sent width height fields }
{
    luma_fits(width, height, fields, 3)
        && slices_fit(default_across(width), default_down(fields, height))
}
