ghost use Rattle.std.specs.Prelude.{◌≡◌, ◌<◌, ◌+◌, ◌^◌, ℕ, List, [], IfErr, IfOk, OnOk, length};
ghost use Rattle.cmd_gen.specs.Checking.{IsCheckable, checked_stream};
ghost use Rattle.cmd_gen.specs.Comparing.{IsCheckedUpTo};
ghost use Rattle.cmd_gen.specs.Defaults.{all_generated};
ghost use Rattle.cmd_gen.specs.Differences.{differences};
ghost use Rattle.cmd_gen.specs.Looping.{ChecksFrame, ChecksFrames, HasChecked, HasSentFrames, IsOneRefused};
ghost use Rattle.link_model.specs.Output.{full_output};
ghost use Rattle.link_model.specs.SendingPictures.{IsFrame, wants_lengths};
ghost use Rattle.link_receiver.specs.HeardLists.{AskedPlaces};
ghost use Rattle.picture_encode.specs.Answering.{ChoosesAs};
ghost use Rattle.picture_encode.specs.Choosing.{AnswersAtMost127};
ghost use Rattle.link_slices.specs.Calls.{PlacesAreBelow};
ghost use Rattle.vc_types.specs.Planes.{Planes, planes_in};
ghost use Rattle.vc_types.specs.SenderSettings.{Generating, generating_view, sending_view};

use crate::checker::Checker;
use crate::gen_frame;
use cmd_send::refusal_ending;
use link_report::Ending;
use link_sender::Sender;
use std::alloc::Global;
use std::thread::Threads;
use vc_slice::Places;
use vc_types::{GenSettings, NoMemory, Plane, SliceNeed};

/// Sends generated frames, each encoded by so many threads, and receives them.
#[derive(Drop)]
pub(crate) struct RoundTrip<H, F> {
    pub(crate) rt: H,
    pub(crate) alloc: Global,
    pub(crate) workers: u32,
    pub(crate) sender: Sender<F>,
    pub(crate) checker: Checker<H>,
}

impl<H: Threads + Copy + Send + Sync, F: Fn(&SliceNeed) -> u8 + Sync> RoundTrip<H, F> {
    /// Sends and receives all generated frames and the end, and answers how many samples differ.
    pub(crate) fn check_all<P: Places>(
        &mut self,
        g: &GenSettings,
        places: &mut P,
    ) -> Result<u64, Ending>
        requires callable { F.IsAlwaysCallable self.old.sender.chooser.choose }
        requires range { AnswersAtMost127 F.Fn self.old.sender.chooser.choose }
        requires chooses { ChoosesAs F.Fn self.old.sender.chooser
            (sending_view self.old.sender.settings) }
        requires wants { self.old.sender.chooser.wants_lens ≡ wants_lengths self.old.sender.settings.choice }
        requires sent { HasSentFrames (generating_view g.now) [] self.old.sender }
        requires below { PlacesAreBelow (P.bound places.old) self.old.checker.receiver.reception.out }
        ensures checkable { (window : ℕ) → IsCheckedUpTo (generating_view g.now) window [] self.old.checker
            → OnOk result (IsCheckable (generating_view g.now)) }
        ensures different { (window : ℕ) → IsCheckedUpTo (generating_view g.now) window [] self.old.checker
            → IfOk result (λ different. different ≡ differences (generating_view g.now)
            (full_output window (checked_stream (generating_view g.now)))) }
        ensures refused { (window : ℕ) → IsCheckedUpTo (generating_view g.now) window [] self.old.checker
            → IfErr result (IsOneRefused (generating_view g.now)) }
        ensures told { AskedPlaces (P.told places.old) (P.told places.new) }
    {
        self.check_frames(g, places)?;
        match self.finish(places) {
            Ok(different) => Ok(different),
            Err(NoMemory) => Err(Ending::NoMemory),
        }
    }

    // Sends and receives all generated frames.
    fn check_frames<P: Places>(&mut self, g: &GenSettings, places: &mut P) -> Result<(), Ending>
        requires callable { F.IsAlwaysCallable self.old.sender.chooser.choose }
        requires range { AnswersAtMost127 F.Fn self.old.sender.chooser.choose }
        requires chooses { ChoosesAs F.Fn self.old.sender.chooser
            (sending_view self.old.sender.settings) }
        requires wants { self.old.sender.chooser.wants_lens ≡ wants_lengths self.old.sender.settings.choice }
        requires sent { HasSentFrames (generating_view g.now) [] self.old.sender }
        requires below { PlacesAreBelow (P.bound places.old) self.old.checker.receiver.reception.out }
        ensures value { (window : ℕ) → IsCheckedUpTo (generating_view g.now) window [] self.old.checker
            → ChecksFrames (generating_view g.now) window self.new.sender self.new.checker result }
        ensures told { AskedPlaces (P.told places.old) (P.told places.new) }
        ensures below { PlacesAreBelow (P.bound places.new) self.new.checker.receiver.reception.out }
    {
        let mut state = u64::from(g.seed);
        for _frame in 0..g.frames {
            let Ok(made) = gen_frame(self.alloc, g, state) else {
                return Err(Ending::NoMemory);
            };
            let (frame, behind) = made;
            self.check_frame(&frame, places)?;
            state = behind;
        }
        Ok(())
    }

    // Sends a frame, and receives its datagrams.
    fn check_frame<P: Places>(&mut self, frame: &[Plane; 3], places: &mut P) -> Result<(), Ending>
        requires callable { F.IsAlwaysCallable self.old.sender.chooser.choose }
        requires range { AnswersAtMost127 F.Fn self.old.sender.chooser.choose }
        requires chooses { ChoosesAs F.Fn self.old.sender.chooser
            (sending_view self.old.sender.settings) }
        requires wants { self.old.sender.chooser.wants_lens ≡ wants_lengths self.old.sender.settings.choice }
        requires sizes { IsFrame (sending_view self.old.sender.settings) (planes_in frame.now) }
        requires below { PlacesAreBelow (P.bound places.old) self.old.checker.receiver.reception.out }
        ensures chooser { self.new.sender.chooser ≡ self.old.sender.chooser }
        ensures settings { self.new.sender.settings ≡ self.old.sender.settings }
        ensures value { (g : Generating) (window : ℕ) (sent : List Planes) → length sent + 1 < 2 ^ 32
            → HasChecked g window sent self.old.sender self.old.checker
            → ChecksFrame g window sent (planes_in frame.now) self.new.sender self.new.checker result }
        ensures told { AskedPlaces (P.told places.old) (P.told places.new) }
        ensures below { PlacesAreBelow (P.bound places.new) self.new.checker.receiver.reception.out }
    {
        match self.sender.send_frame_joined(self.rt, self.workers, frame) {
            Ok(datagrams) => match self.checker.take_all(&datagrams, places) {
                Ok(()) => Ok(()),
                Err(NoMemory) => Err(Ending::NoMemory),
            },
            Err(refusal) => Err(refusal_ending(refusal)),
        }
    }

    // Sends and receives the end of the sequence, and answers how many samples differ.
    fn finish<P: Places>(&mut self, places: &mut P) -> Result<u64, NoMemory>
        requires below { PlacesAreBelow (P.bound places.old) self.old.checker.receiver.reception.out }
        ensures different { (g : Generating) (window : ℕ)
            → HasChecked g window (all_generated g) self.old.sender self.old.checker
            → IfOk result (λ different. different
            ≡ differences g (full_output window (checked_stream g))) }
        ensures told { AskedPlaces (P.told places.old) (P.told places.new) }
    {
        let end = self.sender.finish()?;
        self.checker.take(&end.bytes, places)?;
        self.checker.finish(places)
    }
}
