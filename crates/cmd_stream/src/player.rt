ghost use Rattle.std.specs.Prelude.{◌≡◌, ◌+◌, ◌-◌, ◌^◌, ℕ, Err, OnOk};
ghost use Rattle.std.specs.Option.{option_map};
ghost use Rattle.std.specs.declared.option.Option.{Option};
ghost use Rattle.vc_ports.specs.Faults.{HasCause};
ghost use Rattle.vc_units.specs.Reading.{unit_of};
ghost use Rattle.cmd_stream.specs.PlayLooping.{summary_of};
ghost use Rattle.cmd_stream.specs.PlaySteps.{stream_state, state_so_far};
ghost use Rattle.cmd_stream.specs.Stream.{Stream, at_start};
ghost use Rattle.cmd_stream.specs.Taking.{Agrees, Brought, CountsAtMost};
ghost use Rattle.cmd_stream.specs.PlayViews.{player_state};

use crate::machine::Machine;
use crate::play_fault::TakeFault;
use crate::playback::Playback;
use link_report::Summary;
use std::thread::Threads;
use vc_ports::Sink;
use vc_types::{HIGH_QUALITY_PICTURE, LOW_DELAY_PICTURE, SEQUENCE_HEADER};
use vc_units::Unit;

/// The player between two units.
#[derive(Drop)]
pub(crate) struct Player {
    // None before the first header.
    pub(crate) stream: Option<Playback>,
}

impl Player {
    pub(crate) fn new() -> Player
        ensures { player_state result ≡ state_so_far at_start }
    {
        Player { stream: None }
    }

    /// Takes a unit, and writes the frame that it completes.
    pub(crate) fn take<H: Threads + Copy + Send + Sync, O: Sink>(
        &mut self,
        host: Machine<H>,
        unit: Unit,
        output: &mut O,
    ) -> Result<(), TakeFault>
        requires few { CountsAtMost (2 ^ 32 - 1) (player_state self.old) }
        ensures brought { (stream : Option Stream)
            → player_state self.old ≡ option_map stream_state stream
            → Brought stream (unit_of unit) (player_state self.new)
            (O.held output.old) (O.held output.new) result }
        ensures cause { HasCause (O.faults output.old) (O.faults output.new)
            (result ≡ Err TakeFault.WriteFault) }
        ensures few { OnOk result ((n : ℕ)
            → CountsAtMost n (player_state self.old)
            → CountsAtMost (n + 1) (player_state self.new)) }
    {
        match unit.code {
            SEQUENCE_HEADER => self.agree(&unit.body),
            HIGH_QUALITY_PICTURE | LOW_DELAY_PICTURE => match &mut self.stream {
                Some(stream) if unit.code == stream.coding.picture_code() => {
                    stream.show(host, unit.body, output)
                }
                Some(_) => Err(TakeFault::Refused),
                None => Err(TakeFault::Refused),
            },
            _ => Ok(()),
        }
    }

    /// What was counted.
    pub(crate) fn summary(&self) -> Summary
        requires { CountsAtMost (2 ^ 32 - 1) (player_state self.now) }
        ensures { result ≡ summary_of (player_state self.now) }
    {
        match &self.stream {
            Some(stream) => Summary::Played {
                pictures: stream.pictures,
                unpaired: stream.unpaired(),
                frames: stream.frames,
            },
            None => Summary::Played {
                pictures: 0,
                unpaired: 0,
                frames: 0,
            },
        }
    }

    // Takes a sequence header: the first, or one of the same profile and value.
    fn agree(&mut self, body: &[u8]) -> Result<(), TakeFault>
        ensures value { Agrees body.now (player_state self.old) (player_state self.new) result }
    {
        match &self.stream {
            None => {
                let Some(stream) = Playback::begun_by(body) else {
                    return Err(TakeFault::Refused);
                };
                self.stream = Some(stream);
            }
            Some(stream) if stream.repeats(body) => {}
            Some(_) => return Err(TakeFault::Refused),
        }
        Ok(())
    }
}
