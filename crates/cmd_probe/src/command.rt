ghost use Rattle.vc_ports.specs.Changes.{input_of, output_of};
ghost use Rattle.cmd_probe.specs.Probing.{Probes};

use crate::prober::Prober;
use cmd_rtcp::{InputPart, take_input};
use link_report::{Ending, Summary};
use std::alloc::Global;
use vc_ports::{Sink, Source};

/// Describes what the datagrams of a capture or a pcap file hold: reads at most `part.packets` entries, or
/// records, and writes a line for each source, and more for one that sends VC-2. If the input fails, or isn't
/// read to its end, the datagrams that were read are still described.
pub fn probe<S: Source, O: Sink>(
    alloc: Global,
    part: &InputPart,
    input: &mut S,
    output: &mut O,
) -> Result<Summary, Ending>
    ensures { Probes part.now.packets part.now.form result
        (input_of S.left S.faults input.old input.new)
        (output_of O.held O.faults output.old output.new) }
{
    let mut prober = Prober::new(alloc);
    match take_input(alloc, part, input, output, &mut prober) {
        Ok(datagrams) => Ok(Summary::Shown { datagrams }),
        Err(ending) => Err(ending),
    }
}
