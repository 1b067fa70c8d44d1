ghost use Rattle.std.specs.Prelude.{◌≡◌, ◌+◌, ◌++◌, ◌^◌, ◌<◌, ◌≤◌, [], true, false, Ok, Err, IfOk};
ghost use Rattle.std.specs.Prelude.{IfErr, IfSome, IsNone, IsSome, OnOk, is_some, map};
ghost use Rattle.std.specs.Prelude.{unwrap_or};
ghost use Rattle.std.specs.List.{cons_option};
ghost use Rattle.std.specs.Option.{option_copied};
ghost use Rattle.link_model.specs.Books.{nothing_gathered, gathers, gathered_bytes};
ghost use Rattle.link_model.specs.Books.{gathered_outcome, gathered_whole, slot_at};
ghost use Rattle.link_model.specs.Kept.{has_form, has_place, first_slice, slice_run};
ghost use Rattle.link_gather.specs.Filling.{run_cut};
ghost use Rattle.link_gather.specs.NewSlices.{new_in, slice_at};
ghost use Rattle.link_gather.specs.Views.{new_slice_of, slice_part_of};
ghost use Rattle.vc_types.specs.Subbands.{slice_count};
ghost use Rattle.vc_types.specs.TransformParameters.{parameters_of};

use crate::cutting::{has_slices, keep_slices};
use crate::part::{NewSlice, SlicePart, Taken};
use crate::slots::Slots;
use bytes::Bytes;
use link_model::Outcome;
use std::alloc::Global;
use std::marker::Model;
use vc_types::{NoMemory, Plan};

/// What is gathered of a picture whose parameters are there.
#[derive(Drop)]
pub(crate) struct Gathering {
    plan: Plan,
    /// The bytes of the parameters.
    bytes: Bytes,
    slots: Slots,
}

impl Model for Gathering {
    ghost use Rattle.link_gather.specs.NewSlices.{HasWholeSlots};
    ghost use Rattle.link_model.specs.Books.{Gathered};
    ghost use Rattle.vc_types.specs.TransformParameters.{parameters_of};

    ghost Value = { Gathered };

    ghost view = { λ g. record {
      plan = record {
        parameters = parameters_of g.plan;
        bytes = g.bytes;
      };
      slots = g.slots;
    } };

    ghost invariant = { λ g. HasWholeSlots (parameters_of g.plan) g.slots };
}

impl Gathering {
    /// Nothing yet but the parameters.
    pub(crate) fn new(alloc: Global, plan: Plan, bytes: Bytes) -> Result<Gathering, NoMemory>
        ensures { IfOk result
            (λ g. g ≡ nothing_gathered
            (record { parameters = parameters_of plan; bytes = bytes })) }
    {
        let slots = Slots::new(alloc, plan.slices_x * plan.slices_y)?;
        Ok(Gathering { plan, bytes, slots })
    }

    pub(crate) fn plan(&self) -> Plan
        ensures { parameters_of result ≡ self.now.plan.parameters }
    {
        self.plan
    }

    /// Takes the slices of a part, except those that are kept already.
    pub(crate) fn take(&mut self, alloc: Global, part: &SlicePart) -> Result<Taken, NoMemory>
        ensures outcome { IfOk result
            (λ taken. taken.outcome ≡ gathered_outcome self.old (slice_part_of part.now)) }
        ensures value { OnOk result (self.new ≡ gathers self.old (slice_part_of part.now)) }
        ensures slices { IfOk result (λ taken. map new_slice_of taken.slices.items
            ≡ new_in (λ i. is_some (slot_at self.old.slots i)) self.new) }
    {
        match first_taken(&self.plan, part) {
            Err(outcome) => Ok(Taken::nothing(alloc, outcome)),
            Ok(first) => {
                let seen = keep_slices(alloc, &mut self.slots, first, &self.plan, part)?;
                Ok(Taken {
                    outcome: seen.outcome(),
                    slices: seen.slices,
                })
            }
        }
    }

    /// All slices that came.
    pub(crate) fn slices(&self, alloc: Global) -> Result<Vec<NewSlice>, NoMemory>
        ensures { IfOk result
            (λ slices. map new_slice_of slices.items ≡ new_in (λ i. false) self.now) }
    {
        let mut slices = Vec::new(alloc);
        for index in 0..self.plan.slices_x * self.plan.slices_y {
            self.push_slice(&mut slices, index)?;
        }
        Ok(slices)
    }

    fn push_slice(&self, slices: &mut Vec<NewSlice>, index: u32) -> Result<(), NoMemory>
        requires { index < slice_count self.now.plan.parameters }
        ensures { OnOk result (map new_slice_of slices.new.items
            ≡ map new_slice_of slices.old.items ++ cons_option (slice_at self.now index) []) }
    {
        if let Some(bytes) = self.slice(index) {
            let bytes = bytes.clone()?;
            slices.push(NewSlice {
                plan: self.plan,
                index,
                bytes,
            })?;
        }
        Ok(())
    }

    pub(crate) fn slice(&self, index: u32) -> Option<&Bytes>
        ensures { option_copied result ≡ slot_at self.now.slots index }
    {
        self.slots.get(index as usize)
    }

    /// The bytes of the parameters, and behind them the slices that came.
    pub(crate) fn whole_bytes(&self, alloc: Global) -> Result<Vec<u8>, NoMemory>
        ensures { IfOk result (λ bytes. bytes.items ≡ gathered_bytes self.now) }
    {
        let mut bytes = Vec::new(alloc);
        bytes.extend_from_slice(self.bytes.as_slice())?;
        for i in 0..self.slots.len() {
            append(&mut bytes, self.slots.get(i))?;
        }
        Ok(bytes)
    }

    pub(crate) fn is_complete(&self) -> bool
        ensures { result ≡ is_some (gathered_whole self.now) }
    {
        self.slots.is_full()
    }
}

// Appends a slice, if there is one.
fn append(bytes: &mut Vec<u8>, slice: Option<&Bytes>) -> Result<(), NoMemory>
    ensures { OnOk result
        (bytes.new.items ≡ bytes.old.items ++ unwrap_or (option_copied slice.entry) []) }
{
    match slice {
        Some(slice) => Ok(bytes.extend_from_slice(slice.as_slice())?),
        None => Ok(()),
    }
}

// The number of a part's first slice, or why the part isn't taken.
#[tactic(auto, using(crate::proofs::FillingLaws::runs))]
fn first_taken(plan: &Plan, part: &SlicePart) -> Result<usize, Outcome>
    ensures refused { IfErr result
        (λ outcome. slice_run (parameters_of plan.now) (slice_part_of part.now) ≡ Err outcome) }
    ensures taken { IfOk result
        (λ first. slice_run (parameters_of plan.now) (slice_part_of part.now)
        ≡ Ok (run_cut (parameters_of plan.now) first part.now.count part.now.body)) }
    ensures inside { IfOk result
        (λ first. first + part.now.count ≤ slice_count (parameters_of plan.now)) }
    ensures small { IfOk result (λ first. first + part.now.count < 2 ^ 32) }
{
    if !has_form(plan, part) {
        return Err(Outcome::SlicesForm);
    }
    let Some(first) = first_slice(plan, part) else {
        return Err(Outcome::SlicesPlace);
    };
    if !has_slices(plan, part.count, part.body.as_slice()) {
        return Err(Outcome::SlicesCut);
    }
    Ok(first)
}

fn has_form(plan: &Plan, part: &SlicePart) -> bool
    ensures { result ≡ has_form (parameters_of plan.now) (slice_part_of part.now) }
{
    u32::from(part.prefix) == plan.prefix && u32::from(part.scaler) == plan.scaler
}

// The number of the part's first slice, if all lie within the picture.
fn first_slice(plan: &Plan, part: &SlicePart) -> Option<usize>
    ensures outside { IsNone result
        → has_place (parameters_of plan.now) (slice_part_of part.now) ≡ false }
    ensures inside { IsSome result
        → has_place (parameters_of plan.now) (slice_part_of part.now) ≡ true }
    ensures first { IfSome result
        (λ first. first ≡ first_slice (parameters_of plan.now) (slice_part_of part.now)) }
    ensures fits { IfSome result
        (λ first. first + part.now.count ≤ slice_count (parameters_of plan.now)) }
    ensures small { IfSome result (λ first. first + part.now.count < 2 ^ 32) }
{
    let (x, y) = (u32::from(part.x), u32::from(part.y));
    if x >= plan.slices_x || y >= plan.slices_y {
        return None;
    }
    let first = y * plan.slices_x + x;
    let end = u64::from(first) + u64::from(part.count);
    if end > u64::from(plan.slices_x * plan.slices_y) {
        return None;
    }
    Some(first as usize)
}
