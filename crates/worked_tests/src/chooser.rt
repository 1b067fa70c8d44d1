//! A chooser of indices that no words ask for.

ghost use Rattle.std.specs.Prelude.{◌≡◌, ◌≤◌, IfOk};
ghost use Rattle.link_model.specs.SendingPictures.{IsFrame};
ghost use Rattle.picture_encode.specs.Choosing.{AnswersAtMost127};
ghost use Rattle.vc_types.specs.Planes.{planes_in};
ghost use Rattle.vc_types.specs.SenderSettings.{sending_view};
ghost use Rattle.vc_types.specs.declared.video.Sampling.TheVariants.{S444};

use link_sender::{Chooser, Datagram, Sender};
use std::alloc::Global;
use std::test::Fail;
use vc_types::{FrameRate, IndexChoice, NoMemory, Plane, Sampling, SendSettings, SliceNeed};

// Frames of 8 by 4 samples, 4:4:4, 8 bits, by wavelet 3 at depth 1 in two slices side by side, each with 12
// bytes before it. A datagram has room for 32 bytes of them.
fn two_slices() -> SendSettings
    ensures size { (result.width ≡ 8) × (result.height ≡ 4) × (result.sampling ≡ S444) }
{
    SendSettings {
        width: 8,
        height: 4,
        sampling: Sampling::S444,
        range: 1,
        fields: false,
        top: true,
        wavelet: 3,
        depth: 1,
        slices_x: 2,
        slices_y: 1,
        prefix: 12,
        scaler: 1,
        size: 64,
        choice: IndexChoice::Index(0),
        ssrc: 1,
        seq: 0,
        picture: 0,
        rate: FrameRate::of_ticks(3600),
        pt: 96,
        told: None,
    }
}

// The datagram of both slices: the first has index 0, the second index 1, and neither has a coefficient.
const SLICES: [u8; 64] = [
    0x80, 0xe0, 0, 2, 0, 0, 0, 0, 0, 0, 0, 1, 0, 0, 0, 0xec, 0, 0, 0, 0, 0, 12, 0, 1, 0, 32, 0, 2,
    0, 0, 0, 0, 0, 0, 0, 0, 0, 0, 0, 0, 0, 0, 0, 0, 0, 0, 0, 0, 0, 0, 0, 0, 0, 0, 0, 0, 0, 0, 0, 0,
    1, 0, 0, 0,
];

fn plain(alloc: Global, width: u32, height: u32, sample: u16) -> Result<Plane, NoMemory>
    requires { (width ≤ 8) × (height ≤ 8) }
    ensures { IfOk result (λ p. (p.width ≡ width) × (p.height ≡ height)) }
{
    let samples = vec![in alloc; sample; (width * height) as usize]?;
    Ok(Plane::new(width, height, samples))
}

// A frame that is sent so, of one sample over and over.
fn plain_frame(alloc: Global, settings: &SendSettings, sample: u16) -> Result<[Plane; 3], NoMemory>
    requires size { (settings.now.width ≤ 8) × (settings.now.height ≤ 8) }
    requires sampling { settings.now.sampling ≡ S444 }
    ensures { IfOk result (λ f. IsFrame (sending_view settings.now) (planes_in f)) }
{
    let (width, height) = (settings.width, settings.height);
    let y = plain(alloc, width, height, sample)?;
    let c1 = plain(alloc, width, height, sample)?;
    let c2 = plain(alloc, width, height, sample)?;
    Ok([y, c1, c2])
}

// Sends a frame that isn't refused.
fn sent<F: Fn(&SliceNeed) -> u8>(
    sender: &mut Sender<F>,
    frame: &[Plane; 3],
) -> Result<Vec<Datagram>, Fail>
    requires callable { F.IsAlwaysCallable sender.old.chooser.choose }
    requires range { AnswersAtMost127 F.Fn sender.old.chooser.choose }
    requires sizes { IsFrame (sending_view sender.old.settings) (planes_in frame.now) }
{
    match sender.send_frame(frame) {
        Ok(datagrams) => Ok(datagrams),
        Err(_) => Err(Fail::from("refused")),
    }
}

// Whether a frame is refused.
fn is_refused<F: Fn(&SliceNeed) -> u8>(sender: &mut Sender<F>, frame: &[Plane; 3]) -> bool
    requires callable { F.IsAlwaysCallable sender.old.chooser.choose }
    requires range { AnswersAtMost127 F.Fn sender.old.chooser.choose }
    requires sizes { IsFrame (sending_view sender.old.settings) (planes_in frame.now) }
    ensures settings { sender.new.settings ≡ sender.old.settings }
    ensures chooser { sender.new.chooser ≡ sender.old.chooser }
{
    sender.send_frame(frame).is_err()
}

#[test]
fn a_slice_has_the_index_that_a_chooser_answers_on_its_number(rt: HostRuntime) -> Result<(), Fail> {
    let alloc = rt.alloc();
    let settings = two_slices();
    let white = plain_frame(alloc, &settings, 0xff)?;
    let grey = plain_frame(alloc, &settings, 0x80)?;
    let chooser = Chooser::new(false, |need: &SliceNeed| (need.index % 2) as u8);
    let mut sender = Sender::new(alloc, settings, chooser);
    // Its slices have 40 bytes, which is too much, and it takes no number.
    assert!(rt; is_refused(&mut sender, &white));
    let datagrams = sent(&mut sender, &grey)?;
    assert_eq!(rt; datagrams.len(), 3);
    assert_eq!(rt; datagrams[2].bytes.as_slice(), SLICES.as_slice());
    Ok(())
}
