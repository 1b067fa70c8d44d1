ghost use Rattle.std.proofs.Common.{◌∙◌};
ghost use Rattle.std.specs.Prelude.{◌≡◌, ⊤, refl};
ghost use Rattle.link_capture.specs.Buffering.{kept_in};
ghost use Rattle.link_outside.specs.CaptureLaws.{none_written, more_written, part_behind, wrote_part_before};
ghost use Rattle.link_outside.specs.CaptureLaws.{none_kept};
ghost use Rattle.link_outside.specs.Outlets.{KeptEntries, WroteEntries, WrotePartOfEntries};
ghost use Rattle.vc_ports.specs.Changes.{output_of};

use crate::outlet::{Outlet, OutletFault};
use link_capture::EntryBuffer;
use vc_ports::{Sink, WriteFault};

/// Writes datagrams as the entries of a capture, of which it keeps some, so that they go out together. It
/// keeps the sink borrowed.
#[derive(Drop)]
pub struct CaptureOutlet<'a, O> {
    output: &'a mut O,
    kept: EntryBuffer,
}

impl<'a, O: Sink> CaptureOutlet<'a, O> {
    pub fn new(output: &'a mut O) -> CaptureOutlet<'a, O>
        ensures borrows { result.output.ghost_name ≡ output.entry.ghost_name }
        ensures output { result.output.now ≡ output.old }
        ensures kept { result.kept.len ≡ 0 }
    {
        CaptureOutlet {
            output,
            kept: EntryBuffer::new(),
        }
    }
}

impl<'a, O: Sink> Outlet for CaptureOutlet<'a, O> {
    ghost is_ready = { λ x. x.kept.len ≡ 0 };

    ghost is_open = { λ _. ⊤ };

    ghost took = { λ x y datagrams. (y.output.ghost_name ≡ x.output.ghost_name)
        × KeptEntries (output_of O.held O.faults x.output.now y.output.now) (kept_in y.kept)
        datagrams };

    ghost carried = { λ x y datagrams. (y.output.ghost_name ≡ x.output.ghost_name)
        × WroteEntries (output_of O.held O.faults x.output.now y.output.now) datagrams };

    ghost broke = { λ x y datagrams fault. (y.output.ghost_name ≡ x.output.ghost_name)
        × WrotePartOfEntries (output_of O.held O.faults x.output.now y.output.now) datagrams
        fault };

    fn put(&mut self, datagram: &[u8]) -> Result<(), OutletFault> {
        match self.kept.put(self.output, datagram) {
            Ok(()) => Ok(()),
            Err(WriteFault) => Err(OutletFault::Output),
        }
    }

    fn flush(&mut self) -> Result<(), OutletFault> {
        match self.kept.flush(self.output) {
            Ok(()) => Ok(()),
            Err(WriteFault) => Err(OutletFault::Output),
        }
    }

    ghost opens = { λ x ready. (tt, (refl, none_kept _ _ _ _ ready)) };

    ghost none = { λ x. (refl, none_written _ _) };

    ghost more = { λ x y z first second a b.
        (b.0 ∙ a.0, more_written _ _ _ _ _ _ first second a.1 b.1) };

    ghost breaks_then = { λ x y z first second fault a b. (
      b.0 ∙ a.0,
      part_behind _ _ _ _ _ _ first second fault a.1 b.1,
    ) };

    ghost breaks_before = { λ x y first second fault a. (
      a.0,
      wrote_part_before _ _ _ _ first second fault a.1,
    ) };
}
