ghost use Rattle.std.specs.Prelude.{◌≡◌, ◌*◌, IfOk, OnErr, OnOk, length};
ghost use Rattle.link_model.specs.Sending.{datagrams_from, pictures_per_frame, timestamp_of};
ghost use Rattle.link_model.specs.SendingPictures.{IsFrame, packed_bits, sent_header, sent_parameter_bytes};
ghost use Rattle.link_sender.specs.Packing.{Appends, IsPictureAt, IsPlace};
ghost use Rattle.link_sender.specs.Packing.{bytes_of_all, packing_of, picture_at};
ghost use Rattle.link_sender.specs.Sent.{ArePictures, IsPicture, SendsFrame};
ghost use Rattle.link_sender.specs.Sent.{coded_frame_outgoing, coded_outgoing, numbers_behind};
ghost use Rattle.link_sender.specs.State.{numbers_of, EndsSequence};
ghost use Rattle.picture_encode.specs.Answering.{Answers};
ghost use Rattle.picture_encode.specs.Choosing.{AnswersAtMost127};
ghost use Rattle.picture_encode.specs.Encoded.{bytes_of_slices};
ghost use Rattle.vc_types.specs.Bits.{bits_of};
ghost use Rattle.vc_types.specs.Fields.{joined};
ghost use Rattle.vc_types.specs.Planes.{planes_in};
ghost use Rattle.vc_types.specs.SenderSettings.{packing_view, sending_view};

use crate::datagram::Datagram;
use crate::encoding::{FrameSlices, encode_frame, encode_frame_joined};
use crate::outbox::Outbox;
use crate::picture::Picture;
use crate::place::{PicturePlace, picture_number, timestamp};
use crate::refusal::SendRefusal;
use crate::samples::{check_samples, check_samples_joined};
use crate::sender::Sender;
use crate::writing::write_end;
use picture_encode::{Chooser, EncodedRun, PictureGrids, header_of, plan_of, presentation_of};
use std::alloc::Global;
use std::thread::Threads;
use vc_params::write_params;
use vc_seqhdr::write_header_with;
use vc_types::{NoMemory, PackSettings, Plane, SendSettings, SliceNeed};

impl<F: Fn(&SliceNeed) -> u8> Sender<F> {
    /// A sender that has sent nothing.
    pub fn new(alloc: Global, s: SendSettings, c: Chooser<F>) -> Sender<F>
        ensures settings { result.settings ≡ s }
        ensures chooser { result.chooser ≡ c }
        ensures numbers { numbers_of result
            ≡ record { frame = 0; number = s.seq; timestamp = 0 } }
    {
        let header = header_of(&s);
        let plan = plan_of(&s);
        Sender {
            alloc,
            settings: s,
            chooser: c,
            header,
            plan,
            frame: 0,
            number: s.seq,
            timestamp: 0,
            grids: PictureGrids::new(alloc),
        }
    }

    /// The datagrams of a frame, whose planes have the settings' sizes: of each of its pictures a
    /// sequence header, transform parameters and slices. The chooser may be called on every need
    /// and answers at most 127. A frame is refused whole, at its first sample that is out of range,
    /// else at its first slice that is too large. A refusal or want of memory leaves the sender's
    /// numbers as they were.
    pub fn send_frame(&mut self, frame: &[Plane; 3]) -> Result<Vec<Datagram>, SendRefusal>
        requires callable { F.IsAlwaysCallable self.old.chooser.choose }
        requires range { AnswersAtMost127 F.Fn self.old.chooser.choose }
        requires sizes { IsFrame (sending_view self.old.settings) (planes_in frame.now) }
        ensures settings { self.new.settings ≡ self.old.settings }
        ensures chooser { self.new.chooser ≡ self.old.chooser }
        ensures value { SendsFrame (Answers F.Fn (sending_view self.old.settings) self.old.chooser)
            self.old.chooser.wants_lens (sending_view self.old.settings) (planes_in frame.now)
            (numbers_of self.old) (numbers_of self.new) result }
    {
        check_samples(&self.plan, frame)?;
        let slices = encode_frame(
            self.alloc,
            &self.settings,
            &self.plan,
            &self.chooser,
            &mut self.grids,
            frame,
        )?;
        Ok(self.put_frame(&slices)?)
    }

    /// The timestamp of the next frame, and with field coding of its earlier field.
    pub fn next_timestamp(&self) -> u32
        ensures { result ≡ timestamp_of (sending_view self.now.settings)
            (self.now.frame * pictures_per_frame (sending_view self.now.settings)) }
    {
        let next = PicturePlace {
            frame: self.frame,
            second: false,
        };
        timestamp(&self.settings, &next)
    }

    /// The end of the sequence, with the timestamp of the last datagram, 0 if there was none.
    pub fn finish(&mut self) -> Result<Datagram, NoMemory>
        ensures settings { self.new.settings ≡ self.old.settings }
        ensures chooser { self.new.chooser ≡ self.old.chooser }
        ensures value { IfOk result (λ d. EndsSequence (sending_view self.old.settings)
            (numbers_of self.old) (numbers_of self.new) d) }
        ensures unchanged { OnErr result (numbers_of self.new ≡ numbers_of self.old) }
    {
        let s = packing(&self.settings);
        let last = write_end(self.alloc, &s, self.number, self.timestamp)?;
        self.number = self.number.wrapping_add(1);
        Ok(last)
    }

    // The datagrams of a frame's encoded pictures. The sender goes on with the next numbers.
    fn put_frame(&mut self, slices: &FrameSlices) -> Result<Vec<Datagram>, NoMemory>
        requires whole { ArePictures (sending_view self.old.settings) slices.now }
        ensures settings { self.new.settings ≡ self.old.settings }
        ensures chooser { self.new.chooser ≡ self.old.chooser }
        ensures datagrams { IfOk result (λ datagrams. bytes_of_all datagrams.items
            ≡ datagrams_from (sending_view self.old.settings) self.old.number
            (coded_frame_outgoing (sending_view self.old.settings) self.old.frame slices.now)) }
        ensures numbers { IfOk result (λ datagrams. numbers_of self.new
            ≡ numbers_behind (sending_view self.old.settings) (numbers_of self.old)
            (length datagrams.items)) }
        ensures unchanged { OnErr result (numbers_of self.new ≡ numbers_of self.old) }
    {
        let mut outbox = Outbox {
            alloc: self.alloc,
            datagrams: Vec::new(self.alloc),
            sequence: self.number,
        };
        self.put_pictures(&mut outbox, slices)?;
        let last = PicturePlace {
            frame: self.frame,
            second: self.settings.fields,
        };
        self.timestamp = timestamp(&self.settings, &last);
        self.frame = (self.frame + 1) % (1 << 63);
        self.number = outbox.sequence;
        Ok(outbox.datagrams)
    }

    // Puts the datagrams of a frame's pictures.
    fn put_pictures(&self, outbox: &mut Outbox, slices: &FrameSlices) -> Result<(), NoMemory>
        requires whole { ArePictures (sending_view self.now.settings) slices.now }
        ensures { OnOk result (Appends (sending_view self.now.settings)
            (coded_frame_outgoing (sending_view self.now.settings) self.now.frame slices.now)
            outbox.old outbox.new) }
    {
        let first = PicturePlace {
            frame: self.frame,
            second: false,
        };
        self.put_picture(outbox, &first, &slices.first)?;
        match &slices.second {
            Some(slices) => {
                let second = PicturePlace {
                    frame: self.frame,
                    second: true,
                };
                self.put_picture(outbox, &second, slices)
            }
            None => Ok(()),
        }
    }

    // Puts the datagrams of a picture.
    fn put_picture(
        &self,
        outbox: &mut Outbox,
        place: &PicturePlace,
        slices: &[EncodedRun],
    ) -> Result<(), NoMemory>
        requires place { IsPlace (sending_view self.now.settings) place.now }
        requires whole { IsPicture (sending_view self.now.settings) (joined slices.now) }
        ensures { OnOk result (Appends (sending_view self.now.settings)
            (coded_outgoing (sending_view self.now.settings)
            (picture_at (sending_view self.now.settings) place.now)
            (bytes_of_slices (joined slices.now))) outbox.old outbox.new) }
    {
        let shown = presentation_of(&self.settings);
        let header = write_header_with(self.alloc, &self.header, &shown)?;
        let params = write_params(self.alloc, 3, &self.plan)?;
        let picture = self.picture(place, &header, &params);
        outbox.put_heads(&picture)?;
        outbox.put_encoded(&picture, slices)
    }

    // A picture as the packer's, by its coded sequence header and transform parameters.
    fn picture<'a>(
        &'a self,
        place: &PicturePlace,
        header: &'a [u8],
        params: &'a [u8],
    ) -> Picture<'a>
        requires place { IsPlace (sending_view self.now.settings) place.now }
        requires header { packed_bits (bits_of header.now)
            ≡ sent_header (sending_view self.now.settings) }
        requires params { packed_bits (bits_of params.now)
            ≡ sent_parameter_bytes (sending_view self.now.settings) }
        ensures { IsPictureAt (sending_view self.now.settings)
            (picture_at (sending_view self.now.settings) place.now) result }
    {
        let s = &self.settings;
        Picture {
            settings: packing(s),
            timestamp: timestamp(s, place),
            number: picture_number(s, place),
            plan: &self.plan,
            header,
            params,
        }
    }
}

impl<F: Fn(&SliceNeed) -> u8 + Sync> Sender<F> {
    /// The same as `send_frame`, by so many threads, at most 64: each encodes a part of a picture's
    /// slices, and luma is tested and transformed beside the colours. Fewer than two threads do all in
    /// turn.
    pub fn send_frame_joined<H: Threads + Copy + Send + Sync>(
        &mut self,
        rt: H,
        workers: u32,
        frame: &[Plane; 3],
    ) -> Result<Vec<Datagram>, SendRefusal>
        requires callable { F.IsAlwaysCallable self.old.chooser.choose }
        requires range { AnswersAtMost127 F.Fn self.old.chooser.choose }
        requires sizes { IsFrame (sending_view self.old.settings) (planes_in frame.now) }
        ensures settings { self.new.settings ≡ self.old.settings }
        ensures chooser { self.new.chooser ≡ self.old.chooser }
        ensures value { SendsFrame (Answers F.Fn (sending_view self.old.settings) self.old.chooser)
            self.old.chooser.wants_lens (sending_view self.old.settings) (planes_in frame.now)
            (numbers_of self.old) (numbers_of self.new) result }
    {
        check_samples_joined(&rt, workers, &self.plan, frame)?;
        let coded = encode_frame_joined(
            rt,
            workers,
            self.alloc,
            &self.settings,
            &self.plan,
            &self.chooser,
            &mut self.grids,
            frame,
        )?;
        Ok(self.put_frame(&coded)?)
    }
}

// What the packer is told of the settings.
fn packing(s: &SendSettings) -> PackSettings
    ensures { packing_view result ≡ packing_of (sending_view s.now) }
{
    PackSettings {
        size: s.size,
        ssrc: s.ssrc,
        pt: s.pt,
        seq: s.seq,
        rate: s.rate,
        fields: s.fields,
    }
}
