ghost use Rattle.vc_ports.specs.Changes.{input_of, output_of};
ghost use Rattle.cmd_rtcp.specs.Reporting.{ReportsOn};
ghost use Rattle.cmd_rtcp.specs.Showing.{Shows};
ghost use Rattle.cmd_rtcp.specs.Sources.{CanReport, reporting_of};

use crate::input::take_input;
use crate::reporter::Reporter;
use crate::settings::{InputPart, ReportSettings};
use crate::shower::Shower;
use link_report::{Ending, Summary};
use std::alloc::Global;
use vc_ports::{Sink, Source};

/// Reports on the source of the datagrams of a capture or a pcap file: reads at most `part.packets` entries,
/// or records, and writes the entries of compound packets of RTCP (RFC 3550, 6.1), each a receiver report
/// (6.4.2) or, if the source itself reports, a sender report (6.4.1), with a source description (6.5). A
/// report follows every `settings.every` packets of the source, and one comes at the end if packets have come
/// since. If the input fails, or isn't read to its end, the last report is still written.
pub fn rtcp<S: Source, O: Sink>(
    alloc: Global,
    settings: &ReportSettings,
    part: &InputPart,
    input: &mut S,
    output: &mut O,
) -> Result<Summary, Ending>
    requires { CanReport settings.now }
    ensures { ReportsOn (reporting_of settings.now) part.now.packets part.now.form result
        (input_of S.left S.faults input.old input.new)
        (output_of O.held O.faults output.old output.new) }
{
    let mut reporter = Reporter::new(alloc, *settings);
    match take_input(alloc, part, input, output, &mut reporter) {
        Ok(datagrams) => Ok(reporter.summary(datagrams)),
        Err(ending) => Err(ending),
    }
}

/// Shows the compound packets of RTCP in a capture or a pcap file as text: reads at most `part.packets`
/// entries, or records, and writes for each datagram a line for its report and one for each of its blocks, or
/// the number of its refusal.
pub fn rtcp_show<S: Source, O: Sink>(
    alloc: Global,
    part: &InputPart,
    input: &mut S,
    output: &mut O,
) -> Result<Summary, Ending>
    ensures { Shows part.now.packets part.now.form result
        (input_of S.left S.faults input.old input.new)
        (output_of O.held O.faults output.old output.new) }
{
    let mut shower = Shower { alloc };
    match take_input(alloc, part, input, output, &mut shower) {
        Ok(datagrams) => Ok(Summary::Shown { datagrams }),
        Err(ending) => Err(ending),
    }
}
