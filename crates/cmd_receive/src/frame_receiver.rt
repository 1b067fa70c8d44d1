ghost use Rattle.link_receiver.specs.HeardLists.{HasHeard, frames_form};
ghost use Rattle.receiver_model.specs.Receptions.{new_reception};
ghost use Rattle.std.specs.Prelude.{◌≡◌, ◌≤◌, []};

use cmd_send::Host;
use link_receiver::{Receiver, threads_beside};
use std::thread::Threads;

/// A receiver that has heard nothing, with up to `window` pictures open (2 to 8), beside so many workers. It
/// writes raw frames, and fills gaps between them or not.
pub(crate) fn frame_receiver<H: Threads + Copy>(
    host: &Host<H>,
    fill: bool,
    window: u8,
    workers: u32,
) -> Receiver<H>
    requires least { 2 ≤ window }
    requires most { window ≤ 8 }
    ensures reception { result.reception ≡ new_reception window }
    ensures heard { HasHeard (frames_form fill) result window [] }
{
    let threads = threads_beside(host.rt, workers);
    if fill {
        Receiver::filled(host.alloc, threads, window)
    } else {
        Receiver::new(host.alloc, threads, window)
    }
}
