ghost use Rattle.std.specs.Prelude.{◌≡◌, [], length};
ghost use Rattle.link_hearing.specs.Hearing.{CanGoOn};
ghost use Rattle.vc_ports.specs.Changes.{input_of, output_of};
ghost use Rattle.cmd_rtcp.specs.Answering.{AnswersInput};
ghost use Rattle.cmd_rtcp.specs.Writings.{CanHear, Concludes, PutsInput, writing_state};

use crate::scribe::Scribe;
use crate::settings::InputPart;
use crate::writing::Writing;
use link_hearing::{HeardInput, has_broken, hear_input};
use link_report::Ending;
use std::alloc::Global;
use vc_ports::{Sink, Source};

/// Passes the datagrams of an input, of at most `part.packets` entries or records, to a scribe, and writes
/// the text that it provides; returns the number of datagrams. If the input fails, or isn't read to its end,
/// the text due for those that were read is still written.
pub fn take_input<I: Source, O: Sink, S: Scribe>(
    alloc: Global,
    part: &InputPart,
    input: &mut I,
    output: &mut O,
    scribe: &mut S,
) -> Result<u64, Ending>
    requires { S.has_heard scribe.old scribe.old [] }
    ensures { AnswersInput (S.due scribe.old).in_all
        (λ count heard. (count ≡ length heard) × S.has_ended scribe.old scribe.new heard)
        part.now.form part.now.packets result
        (input_of I.left I.faults input.old input.new)
        (output_of O.held O.faults output.old output.new) }
{
    let mut writing = Writing::new(scribe, output);
    let heard = hear_datagrams(alloc, part, input, &mut writing);
    conclude(&mut writing, heard.ended)
}

// Has a scribe that has heard nothing hear them.
fn hear_datagrams<I: Source, O: Sink, S: Scribe>(
    alloc: Global,
    part: &InputPart,
    input: &mut I,
    writing: &mut Writing<S, O>,
) -> HeardInput
    requires none { writing.old.datagrams ≡ 0 }
    requires new { S.has_heard writing.old.scribe.now writing.old.scribe.now [] }
    ensures borrows_scribe { writing.new.scribe.ghost_name ≡ writing.old.scribe.ghost_name }
    ensures borrows_output { writing.new.output.ghost_name ≡ writing.old.output.ghost_name }
    ensures ready { CanGoOn result.ended → CanHear S.has_heard (writing_state O.held O.faults writing.new) }
    ensures puts { PutsInput S.has_heard S.due part.now.form part.now.packets
        (input_of I.left I.faults input.old input.new)
        (writing_state O.held O.faults writing.old) (writing_state O.held O.faults writing.new) result }
{
    hear_input(alloc, part.form, part.packets, input, writing)
}

// Has it hear the end, unless it broke off, and says what hearing came to.
fn conclude<O: Sink, S: Scribe>(
    writing: &mut Writing<S, O>,
    heard: Result<(), Ending>,
) -> Result<u64, Ending>
    requires { CanGoOn heard → CanHear S.has_heard (writing_state O.held O.faults writing.old) }
    ensures borrows_scribe { writing.new.scribe.ghost_name ≡ writing.old.scribe.ghost_name }
    ensures borrows_output { writing.new.output.ghost_name ≡ writing.old.output.ghost_name }
    ensures concludes { Concludes S.has_heard S.has_ended S.due
        (writing_state O.held O.faults writing.old) (writing_state O.held O.faults writing.new)
        heard result }
{
    match heard {
        Err(ending) if has_broken(&ending) => Err(ending),
        Err(ending) => match writing.end() {
            Ok(()) => Err(ending),
            Err(fault) => Err(Ending::from(fault)),
        },
        Ok(()) => match writing.end() {
            Ok(()) => Ok(writing.datagrams),
            Err(fault) => Err(Ending::from(fault)),
        },
    }
}
