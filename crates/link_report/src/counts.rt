ghost use Rattle.std.specs.Prelude.{◌≡◌, OnOk, ◌++◌, map};
ghost use Rattle.std.specs.String.{string_bytes};
ghost use Rattle.link_report.specs.Report.{line, lines, named, tally_lines};

use link_model::Tally;
use vc_types::NoMemory;

// A line of a report: its name and its number.
#[derive(Clone, Copy)]
pub(crate) struct Count(pub(crate) &'static str, pub(crate) u64);

// Adds its line to a text.
#[tactic(auto, unfolding(crate::specs::Report::line))]
pub(crate) fn push_count(text: &mut String, count: &Count) -> Result<(), NoMemory>
    ensures { OnOk result
        (string_bytes text.new ≡ string_bytes text.old ++ line count.now.0.now count.now.1) }
{
    let Count(name, number) = count;
    write!(text, "{name} {number}\n")?;
    Ok(())
}

// Adds a line for each count.
pub(crate) fn push_counts(text: &mut String, counts: &[Count]) -> Result<(), NoMemory>
    ensures { OnOk result
        (string_bytes text.new ≡ string_bytes text.old ++ lines (map named counts.now)) }
{
    'counts: for count in counts {
        push_count(text, count)?;
    }
    Ok(())
}

// The lines of a tally.
#[tactic(auto, unfolding(crate::specs::Report::tally_lines))]
pub(crate) fn tally_counts(tally: &Tally) -> [Count; 31]
    ensures { map named result ≡ tally_lines tally.now }
{
    [
        Count("datagrams", tally.datagrams),
        Count("rtp-short", tally.rtp_short),
        Count("rtp-version", tally.rtp_version),
        Count("rtp-shape", tally.rtp_shape),
        Count("payload-short", tally.payload_short),
        Count("payload-code", tally.payload_code),
        Count("payload-fragment", tally.payload_fragment),
        Count("foreign", tally.foreign),
        Count("header-new", tally.header_new),
        Count("header-same", tally.header_same),
        Count("header-other", tally.header_other),
        Count("header-bad", tally.header_bad),
        Count("end", tally.end),
        Count("skipped", tally.skipped),
        Count("late", tally.late),
        Count("params-kept", tally.params_kept),
        Count("params-repeat", tally.params_repeat),
        Count("params-conflict", tally.params_conflict),
        Count("params-bad", tally.params_bad),
        Count("slices-kept", tally.slices_kept),
        Count("slices-repeat", tally.slices_repeat),
        Count("slices-conflict", tally.slices_conflict),
        Count("slices-pending", tally.slices_pending),
        Count("slices-full", tally.slices_full),
        Count("slices-form", tally.slices_form),
        Count("slices-place", tally.slices_place),
        Count("slices-cut", tally.slices_cut),
        Count("incomplete", tally.incomplete),
        Count("unsound", tally.unsound),
        Count("unpaired", tally.unpaired),
        Count("frames", tally.frames),
    ]
}
