ghost use Rattle.std.specs.Prelude.{◌≡◌, ◌≢◌, ◌+◌, ◌-◌, ◌^◌, ℕ, Err, None, OnOk};
ghost use Rattle.std.specs.declared.option.Option.{Option};
ghost use Rattle.stream_model.specs.Packed.{PackStream};
ghost use Rattle.cmd_stream.specs.PackSteps.{FinishesStream, TakesHeader, TakesUnit};
ghost use Rattle.cmd_stream.specs.PackViews.{CountsFew, IsBehindUnits};
ghost use Rattle.vc_ports.specs.Faults.{HasCause};
ghost use Rattle.vc_types.specs.SenderSettings.{Packing, packing_view};
ghost use Rattle.vc_units.specs.Reading.{unit_of};

use crate::opened::Opened;
use crate::pack_fault::UnitRefusal;
use crate::totals::Totals;
use link_report::{Ending, Summary};
use link_sender::Packer;
use std::alloc::Global;
use vc_ports::{Sink, WriteFault};
use vc_seqhdr::read_header;
use vc_types::{HIGH_QUALITY_PICTURE, LOW_DELAY_PICTURE, PackSettings, SEQUENCE_HEADER};
use vc_units::Unit;

/// What is kept of a stream between two units.
#[derive(Drop)]
pub(crate) struct StreamPacker {
    pub(crate) alloc: Global,
    pub(crate) settings: PackSettings,
    // None before the first header.
    pub(crate) stream: Option<Opened>,
    pub(crate) totals: Totals,
}

impl StreamPacker {
    pub(crate) fn new(alloc: Global, settings: PackSettings) -> StreamPacker
        ensures settings { result.settings ≡ settings }
        ensures behind { IsBehindUnits (packing_view settings) None result }
    {
        StreamPacker {
            alloc,
            settings,
            stream: None,
            totals: Totals {
                datagrams: 0,
                bytes: 0,
            },
        }
    }

    /// Takes a unit, and writes the entries of the datagrams of its picture, if it has one.
    pub(crate) fn take<O: Sink>(&mut self, unit: Unit, output: &mut O) -> Result<(), UnitRefusal>
        requires few { CountsFew (2 ^ 32 - 1) self.old }
        ensures value { (s : Packing) (stream : Option PackStream) → IsBehindUnits s stream self.old
            → TakesUnit s stream (unit_of unit) self.new (O.held output.old) (O.held output.new)
            result }
        ensures cause { HasCause (O.faults output.old) (O.faults output.new)
            (result ≡ Err UnitRefusal.WriteFault) }
        ensures few { OnOk result ((n : ℕ) → CountsFew n self.old → CountsFew (n + 1) self.new) }
    {
        match unit.code {
            SEQUENCE_HEADER => self.take_header(unit.body),
            HIGH_QUALITY_PICTURE => match &mut self.stream {
                Some(stream) => {
                    let datagrams = stream.pack_picture(&unit.body)?;
                    self.totals.put_all(&datagrams, output)?;
                    Ok(())
                }
                None => Err(UnitRefusal::Bad),
            },
            LOW_DELAY_PICTURE => Err(UnitRefusal::Bad),
            _ => Ok(()),
        }
    }

    /// Writes the entry of the end of the sequence.
    pub(crate) fn finish<O: Sink>(&mut self, output: &mut O) -> Result<Summary, Ending>
        ensures value { (s : Packing) (stream : Option PackStream) → IsBehindUnits s stream self.old
            → FinishesStream s stream (O.held output.old) (O.held output.new) result }
        ensures cause { HasCause (O.faults output.old) (O.faults output.new)
            (result ≡ Err Ending.OutputFailed) }
    {
        let (pictures, end) = match &mut self.stream {
            Some(stream) => (stream.pictures, stream.packer.finish()),
            None => (0, Packer::new(self.alloc, self.settings).finish()),
        };
        let Ok(end) = end else {
            return Err(Ending::NoMemory);
        };
        match self.totals.put_all(&[end], output) {
            Ok(()) => Ok(Summary::Packed {
                pictures,
                datagrams: self.totals.datagrams,
                bytes: self.totals.bytes,
            }),
            Err(WriteFault) => Err(Ending::OutputFailed),
        }
    }

    // Takes a sequence header: the first, or one of the same value, whose bytes stand for the pictures
    // behind it.
    fn take_header(&mut self, body: Vec<u8>) -> Result<(), UnitRefusal>
        ensures value { (s : Packing) (stream : Option PackStream) → IsBehindUnits s stream self.old
            → TakesHeader s stream body.items self.new result }
        ensures written { result ≢ Err UnitRefusal.WriteFault }
        ensures few { OnOk result ((n : ℕ) → CountsFew n self.old → CountsFew n self.new) }
    {
        let Ok((header, used)) = read_header(&body) else {
            return Err(UnitRefusal::Bad);
        };
        let mut coded = body;
        coded.truncate(used);
        match &mut self.stream {
            None => {
                let mut settings = self.settings;
                settings.fields = header.fields;
                let packer = Packer::new(self.alloc, settings);
                self.stream = Some(Opened {
                    header,
                    coded,
                    packer,
                    pictures: 0,
                });
            }
            Some(stream) if stream.header.is_same(&header) => stream.coded = coded,
            Some(_) => return Err(UnitRefusal::Bad),
        }
        Ok(())
    }
}
