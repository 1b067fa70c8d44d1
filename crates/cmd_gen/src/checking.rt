ghost use Rattle.std.specs.Prelude.{◌≡◌, ◌≤◌, IfErr, IfOk, OnOk};
ghost use Rattle.cmd_gen.specs.Checking.{Checks, IsCheckable, checked_stream};
ghost use Rattle.cmd_gen.specs.Defaults.{sent_by_default};
ghost use Rattle.cmd_gen.specs.Differences.{differences};
ghost use Rattle.cmd_gen.specs.Looping.{IsOneRefused};
ghost use Rattle.link_model.specs.Output.{full_output};
ghost use Rattle.link_model.specs.SendingPictures.{wants_lengths};
ghost use Rattle.link_receiver.specs.HeardLists.{AskedPlaces};
ghost use Rattle.picture_encode.specs.Answering.{ChoosesAs};
ghost use Rattle.picture_encode.specs.Choosing.{AnswersAtMost127};
ghost use Rattle.vc_ports.specs.Changes.{changed};
ghost use Rattle.vc_types.specs.SenderSettings.{generating_view};

use crate::checker::Checker;
use crate::round_trip::RoundTrip;
use crate::{default_settings, samples_of};
use cmd_send::Host;
use link_receiver::threads_beside;
use link_report::{Ending, Summary};
use link_sender::{Chooser, Sender};
use std::alloc::Global;
use std::thread::Threads;
use vc_slice::{Hands, Places};
use vc_types::{GenSettings, IndexChoice, SliceNeed};

/// Checks generated frames: sends each at index 0 and the other defaults, receives its datagrams
/// with so many pictures open at a time (2 to 8) and so many workers, and counts the samples that
/// come out otherwise than they went in. As many threads, at most 64, encode each frame, and with
/// workers a received picture is transformed in four parts side by side. Nothing is written. One frame
/// and its datagrams are kept in memory, which no clause says.
pub fn check<H: Threads + Copy + Send + Sync, P: Hands>(
    host: Host<H>,
    g: &GenSettings,
    window: u8,
    workers: u32,
    hands: &mut P,
) -> Result<Summary, Ending>
    requires least { 2 ≤ window }
    requires most { window ≤ 8 }
    requires free { P.is_free hands.old }
    ensures { Checks (generating_view g.now) window workers result
        (changed P.Places.told hands.old hands.new) }
{
    let Ok(()) = hands.start_workers(workers) else {
        return Err(Ending::NoMemory);
    };
    let chooser = Chooser::by(IndexChoice::Index(0), |_need: &SliceNeed| 0);
    let encoder = Encoder {
        rt: host.rt,
        alloc: host.alloc,
        chooser,
    };
    let different = check_by(encoder, g, window, workers, hands)?;
    Ok(Summary::Compared {
        frames: u64::from(g.frames),
        samples: samples_of(g),
        different,
    })
}

// What encodes generated frames: threads, memory, and what chooses the indices.
#[derive(Drop)]
struct Encoder<H, F> {
    rt: H,
    alloc: Global,
    chooser: Chooser<F>,
}

// How many samples come out otherwise, by a chooser of index 0.
fn check_by<H: Threads + Copy + Send + Sync, F: Fn(&SliceNeed) -> u8 + Sync, P: Places>(
    encoder: Encoder<H, F>,
    g: &GenSettings,
    window: u8,
    workers: u32,
    places: &mut P,
) -> Result<u64, Ending>
    requires least { 2 ≤ window }
    requires most { window ≤ 8 }
    requires callable { F.IsAlwaysCallable encoder.chooser.choose }
    requires range { AnswersAtMost127 F.Fn encoder.chooser.choose }
    requires chooses { ChoosesAs F.Fn encoder.chooser
        (sent_by_default (generating_view g.now).frames) }
    requires wants { encoder.chooser.wants_lens
        ≡ wants_lengths (sent_by_default (generating_view g.now).frames).choice }
    ensures checkable { OnOk result (IsCheckable (generating_view g.now)) }
    ensures different { IfOk result (λ different. different ≡ differences (generating_view g.now)
        (full_output window (checked_stream (generating_view g.now)))) }
    ensures refused { IfErr result (IsOneRefused (generating_view g.now)) }
    ensures told { AskedPlaces (P.told places.old) (P.told places.new) }
{
    let Encoder { rt, alloc, chooser } = encoder;
    let sender = Sender::new(alloc, default_settings(g), chooser);
    let checker = Checker::new(alloc, threads_beside(rt, workers), g, window);
    let mut trip = RoundTrip {
        rt,
        alloc,
        workers,
        sender,
        checker,
    };
    trip.check_all(g, places)
}
