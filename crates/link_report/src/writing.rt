ghost use Rattle.std.specs.Prelude.{◌≡◌, OnOk, OnErr, IfOk, Err};
ghost use Rattle.std.specs.String.{string_bytes};
ghost use Rattle.vc_ports.specs.Faults.{HasCause};
ghost use Rattle.vc_ports.specs.Writing.{Grew, GrewBySome};
ghost use Rattle.link_report.specs.Report.{tally_text};

use crate::counts::{push_counts, tally_counts};
use crate::fault::ReportFault;
use link_model::Tally;
use std::alloc::Global;
use vc_ports::{Sink, WriteFault, write_all};
use vc_types::NoMemory;

fn tally_string(alloc: Global, tally: &Tally) -> Result<String, NoMemory>
    ensures { IfOk result (λ text. string_bytes text ≡ tally_text tally.now) }
{
    let mut text = String::new(alloc);
    push_counts(&mut text, &tally_counts(tally))?;
    Ok(text)
}

/// Writes the 31 lines of a tally. They are made whole first: without memory nothing goes out. After a
/// fault of the report a prefix of them went out.
pub fn write_tally<O: Sink>(alloc: Global, sink: &mut O, t: &Tally) -> Result<(), ReportFault>
    ensures ok { OnOk result (Grew (O.held sink.old) (O.held sink.new) (tally_text t.now)) }
    ensures err { OnErr result
        (GrewBySome (O.held sink.old) (O.held sink.new) (tally_text t.now)) }
    ensures cause { HasCause (O.faults sink.old) (O.faults sink.new)
        (result ≡ Err ReportFault.ReportFault) }
    ensures no_memory { result ≡ Err ReportFault.NoMemory → sink.new ≡ sink.old }
{
    let Ok(text) = tally_string(alloc, t) else {
        return Err(ReportFault::NoMemory);
    };
    match write_all(sink, text.as_bytes()) {
        Ok(()) => Ok(()),
        Err(WriteFault) => Err(ReportFault::ReportFault),
    }
}
