ghost use Rattle.std.specs.Prelude.{◌≡◌};
ghost use Rattle.cmd_gen.specs.Defaults.{sent_by_default};
ghost use Rattle.vc_types.specs.SenderSettings.{generating_view, sending_view};

use vc_types::{FrameRate, GenSettings, IndexChoice, SendSettings, picture_height};

/// How generated frames are sent where nothing else is said: at index 0, and else by the defaults.
pub fn default_settings(g: &GenSettings) -> SendSettings
    ensures { sending_view result ≡ sent_by_default (generating_view g.now).frames }
{
    SendSettings {
        width: g.width,
        height: g.height,
        sampling: g.sampling,
        range: g.range,
        fields: g.fields,
        top: g.top,
        wavelet: 1,
        depth: 3,
        slices_x: (g.width + 15) / 16,
        slices_y: (picture_height(g.fields, g.height) + 7) / 8,
        prefix: 0,
        scaler: 2,
        size: 1400,
        choice: IndexChoice::Index(0),
        ssrc: 1,
        seq: 0,
        picture: 0,
        rate: FrameRate::of_ticks(3600),
        pt: 96,
        told: None,
    }
}
