ghost use Rattle.std.specs.Prelude.{◌≡◌, ◌≤◌, None, Ok, IfErr, IsOk, OnOk, length};
ghost use Rattle.link_model.specs.Kept.{next_slice};
ghost use Rattle.stream_model.specs.Packing.{AreAllSlices, first_large_part, first_large_slice, slices_in};
ghost use Rattle.link_sender.specs.PackRefusals.{SaysLarge};
ghost use Rattle.link_sender.specs.Views.{packed_view};
ghost use Rattle.vc_types.specs.SenderSettings.{packing_view};
ghost use Rattle.vc_types.specs.TransformParameters.{parameters_of};

use crate::SendRefusal;
use crate::picture::Picture;
use vc_slice::cut;
use vc_types::Plan;

/// The heads of the packet and of the payload take so many bytes in front of a sequence header.
const HEADER_HEADS: usize = 16;

/// In front of transform parameters.
const PARAMETERS_HEADS: usize = 28;

/// In front of slices.
pub(crate) const SLICES_HEADS: usize = 32;

/// Refuses the first part of a picture, in order of sending, that has no room in a datagram.
#[tactic(auto, unfolding(stream_model::specs::Packing::first_large_part))]
pub(crate) fn check_parts(p: &Picture<'_>, slices: &[u8]) -> Result<(), SendRefusal>
    requires whole { AreAllSlices (parameters_of p.now.plan.now) slices.now }
    ensures fits { OnOk result (first_large_part (packing_view p.now.settings)
        (packed_view p.now slices.now) ≡ None) }
    ensures refused { IfErr result (SaysLarge (first_large_part (packing_view p.now.settings)
        (packed_view p.now slices.now))) }
{
    let size = p.settings.size as usize;
    if p.header.len() > size - HEADER_HEADS {
        return Err(too_large(0, p.header));
    }
    if p.params.len() > size - PARAMETERS_HEADS {
        return Err(too_large(0, p.params));
    }
    check_slices(p.plan, size - SLICES_HEADS, slices)
}

// Refuses the first slice that has more bytes than there is room for.
fn check_slices(plan: &Plan, room: usize, slices: &[u8]) -> Result<(), SendRefusal>
    requires whole { AreAllSlices (parameters_of plan.now) slices.now }
    ensures fits { OnOk result
        (first_large_slice room 0 (slices_in (parameters_of plan.now) slices.now) ≡ None) }
    ensures refused { IfErr result (SaysLarge
        (first_large_slice room 0 (slices_in (parameters_of plan.now) slices.now))) }
{
    let mut rest = slices;
    for index in 0..plan.slices_x * plan.slices_y {
        let (slice, behind) = next_slice(plan, rest);
        if slice.len() > room {
            return Err(too_large(index, slice));
        }
        rest = behind;
    }
    Ok(())
}

fn too_large(slice: u32, part: &[u8]) -> SendRefusal
    ensures { result ≡ SendRefusal.SliceTooLarge slice (length part.now) }
{
    SendRefusal::SliceTooLarge {
        slice,
        bytes: part.len() as u64,
    }
}

/// The slice that begins the bytes, and what is behind it.
#[tactic(auto, using(crate::proofs::Cutting::cut_to, crate::proofs::Cutting::cut_within, crate::proofs::Cutting::never_cut))]
pub(crate) fn next_slice<'a>(plan: &Plan, bytes: &'a [u8]) -> (&'a [u8], &'a [u8])
    requires { IsOk (next_slice (parameters_of plan.now) bytes.now) }
    ensures { next_slice (parameters_of plan.now) bytes.now ≡ Ok (result.0.now, result.1.now) }
{
    match cut(plan.prefix, plan.scaler, bytes) {
        Ok(len) => bytes.split_at(len),
        Err(_) => (bytes, bytes),
    }
}
