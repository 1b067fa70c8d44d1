ghost use Rattle.std.specs.Prelude.{◌≡◌, ◌+◌, ◌<◌, ◌&&◌, not, IfOk};
ghost use Rattle.link_model.specs.Judgement.{one_more, with_outcome};
ghost use Rattle.link_receiver.specs.Counts.{count_of};
ghost use Rattle.receiver_model.specs.Releasing.{one_if};

use link_model::{Outcome, Tally};
use vc_types::NoMemory;

/// A count, and so many more. There is no memory for a count of 2^64.
fn sum(count: u64, more: u64) -> Result<u64, NoMemory>
    ensures { IfOk result (λ sum. sum ≡ count + more) }
{
    count.checked_add(more).ok_or(NoMemory)
}

/// The counts with one datagram more, which has this outcome.
pub(crate) fn with_outcome(t: &Tally, outcome: Outcome) -> Result<Tally, NoMemory>
    ensures { IfOk result (λ counts. counts ≡ with_outcome t.now outcome) }
{
    let mut counts = Tally {
        datagrams: sum(t.datagrams, 1)?,
        ..*t
    };
    if count_of(&counts, outcome) == u64::MAX {
        return Err(NoMemory);
    }
    count_once(&mut counts, outcome);
    Ok(counts)
}

fn count_of(t: &Tally, outcome: Outcome) -> u64
    ensures { result ≡ count_of t.now outcome }
{
    match outcome {
        Outcome::RtpShort => t.rtp_short,
        Outcome::RtpVersion => t.rtp_version,
        Outcome::RtpShape => t.rtp_shape,
        Outcome::PayloadShort => t.payload_short,
        Outcome::PayloadCode => t.payload_code,
        Outcome::PayloadFragment => t.payload_fragment,
        Outcome::Foreign => t.foreign,
        Outcome::HeaderNew => t.header_new,
        Outcome::HeaderSame => t.header_same,
        Outcome::HeaderOther => t.header_other,
        Outcome::HeaderBad => t.header_bad,
        Outcome::End => t.end,
        Outcome::Skipped => t.skipped,
        Outcome::Late => t.late,
        Outcome::ParamsKept => t.params_kept,
        Outcome::ParamsRepeat => t.params_repeat,
        Outcome::ParamsConflict => t.params_conflict,
        Outcome::ParamsBad => t.params_bad,
        Outcome::SlicesKept => t.slices_kept,
        Outcome::SlicesRepeat => t.slices_repeat,
        Outcome::SlicesConflict => t.slices_conflict,
        Outcome::SlicesPending => t.slices_pending,
        Outcome::SlicesFull => t.slices_full,
        Outcome::SlicesForm => t.slices_form,
        Outcome::SlicesPlace => t.slices_place,
        Outcome::SlicesCut => t.slices_cut,
    }
}

fn count_once(t: &mut Tally, outcome: Outcome)
    requires { count_of t.old outcome < u64.MAX }
    ensures { t.new ≡ one_more t.old outcome }
{
    match outcome {
        Outcome::RtpShort => t.rtp_short += 1,
        Outcome::RtpVersion => t.rtp_version += 1,
        Outcome::RtpShape => t.rtp_shape += 1,
        Outcome::PayloadShort => t.payload_short += 1,
        Outcome::PayloadCode => t.payload_code += 1,
        Outcome::PayloadFragment => t.payload_fragment += 1,
        Outcome::Foreign => t.foreign += 1,
        Outcome::HeaderNew => t.header_new += 1,
        Outcome::HeaderSame => t.header_same += 1,
        Outcome::HeaderOther => t.header_other += 1,
        Outcome::HeaderBad => t.header_bad += 1,
        Outcome::End => t.end += 1,
        Outcome::Skipped => t.skipped += 1,
        Outcome::Late => t.late += 1,
        Outcome::ParamsKept => t.params_kept += 1,
        Outcome::ParamsRepeat => t.params_repeat += 1,
        Outcome::ParamsConflict => t.params_conflict += 1,
        Outcome::ParamsBad => t.params_bad += 1,
        Outcome::SlicesKept => t.slices_kept += 1,
        Outcome::SlicesRepeat => t.slices_repeat += 1,
        Outcome::SlicesConflict => t.slices_conflict += 1,
        Outcome::SlicesPending => t.slices_pending += 1,
        Outcome::SlicesFull => t.slices_full += 1,
        Outcome::SlicesForm => t.slices_form += 1,
        Outcome::SlicesPlace => t.slices_place += 1,
        Outcome::SlicesCut => t.slices_cut += 1,
    }
}

/// The counts with one released picture more.
pub(crate) fn with_picture(
    t: &Tally,
    complete: bool,
    sound: bool,
    alone: u64,
    has_frame: bool,
) -> Result<Tally, NoMemory>
    ensures { IfOk result (λ counts. counts ≡ record t.now {
      incomplete = t.now.incomplete + one_if (not complete);
      unsound = t.now.unsound + one_if (complete && not sound);
      unpaired = t.now.unpaired + alone;
      frames = t.now.frames + one_if has_frame;
    }) }
{
    Ok(Tally {
        incomplete: sum(t.incomplete, u64::from(!complete))?,
        unsound: sum(t.unsound, u64::from(complete && !sound))?,
        unpaired: sum(t.unpaired, alone)?,
        frames: sum(t.frames, u64::from(has_frame))?,
        ..*t
    })
}

/// The counts where a first field is given up, if one waited.
pub(crate) fn with_unpaired(t: &Tally, has_waited: bool) -> Result<Tally, NoMemory>
    ensures { IfOk result (λ counts. counts
        ≡ record t.now { unpaired = t.now.unpaired + one_if has_waited }) }
{
    Ok(Tally {
        unpaired: sum(t.unpaired, u64::from(has_waited))?,
        ..*t
    })
}
