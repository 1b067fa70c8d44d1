ghost use Rattle.std.specs.Prelude.{◌≡◌, ◌≤◌, ◌<◌, ◌||◌, ◌+◌, ◌++◌, ◌^◌, ◌==◌, ◌∷◌, []};
ghost use Rattle.std.specs.Prelude.{IfOk, OnOk, Some, is_ok, length, map, not};
ghost use Rattle.std.specs.Prelude.{if◌then◌else◌};
ghost use Rattle.link_model.specs.Books.{slot_at, with_run};
ghost use Rattle.link_model.specs.Judgement.{is_conflict, is_new};
ghost use Rattle.link_model.specs.Kept.{next_slices};
ghost use Rattle.link_gather.specs.Filling.{run_cut, has_conflict, has_new};
ghost use Rattle.link_gather.specs.Filling.{put_in, is_put_other, is_put_new, seen_outcome};
ghost use Rattle.link_gather.specs.NewSlices.{HasWholeSlots, picture_slice, run_new};
ghost use Rattle.link_gather.specs.Views.{new_slice_of};
ghost use Rattle.vc_types.specs.OfPlan.{slice_count};
ghost use Rattle.vc_types.specs.Slices.{slice_length};
ghost use Rattle.vc_types.specs.TransformParameters.{parameters_of};

use crate::part::{NewSlice, SlicePart};
use crate::slots::{Put, Slots};
use bytes::Bytes;
use link_model::Outcome;
use std::alloc::Global;
use vc_slice::cut;
use vc_types::{NoMemory, Plan};

/// Whether so many whole slices begin the bytes.
#[tactic(auto, using(crate::proofs::FillingLaws::cutting))]
pub(crate) fn has_slices(plan: &Plan, count: u16, bytes: &[u8]) -> bool
    ensures { result ≡ is_ok (next_slices (parameters_of plan.now) count bytes.now) }
{
    let mut rest = bytes;
    let mut left = count;
    while left > 0 {
        let Ok(len) = cut(plan.prefix, plan.scaler, rest) else {
            return false;
        };
        let (_, behind) = rest.split_at(len);
        rest = behind;
        left -= 1;
    }
    true
}

/// What became of the slices of one part together: whether one is kept with other bytes, and those
/// that are new.
#[derive(Drop)]
pub(crate) struct Seen {
    pub(crate) conflict: bool,
    pub(crate) slices: Vec<NewSlice>,
}

impl Seen {
    // Keeps one slice more, unless its slot has one.
    fn keep(
        &mut self,
        slots: &mut Slots,
        plan: &Plan,
        i: usize,
        bytes: Bytes,
    ) -> Result<(), NoMemory>
        requires inside { i < slice_count plan.now }
        requires small { i < 2 ^ 32 }
        requires whole { slice_length plan.now.prefix plan.now.scaler bytes ≡ Some (length bytes) }
        requires slots { HasWholeSlots (parameters_of plan.now) slots.old }
        ensures value { OnOk result (slots.new ≡ put_in slots.old i bytes) }
        ensures conflict { OnOk result (self.new.conflict
            ≡ (self.old.conflict || is_conflict (slot_at slots.old) (i, bytes))) }
        ensures slices { OnOk result (map new_slice_of self.new.slices.items
            ≡ map new_slice_of self.old.slices.items
            ++ (if is_new (slot_at slots.old) (i, bytes)
            then picture_slice (parameters_of plan.now) i bytes ∷ [] else [])) }
        ensures slots { HasWholeSlots (parameters_of plan.now) slots.new }
    {
        let put = slots.put(i, &bytes)?;
        let slice = NewSlice {
            plan: *plan,
            index: i as u32,
            bytes,
        };
        self.add(put, slice)
    }

    // With what became of one slice more.
    fn add(&mut self, put: Put, slice: NewSlice) -> Result<(), NoMemory>
        ensures conflict { OnOk result
            (self.new.conflict ≡ (self.old.conflict || is_put_other put)) }
        ensures slices { OnOk result (map new_slice_of self.new.slices.items
            ≡ map new_slice_of self.old.slices.items
            ++ (if is_put_new put then new_slice_of slice ∷ [] else [])) }
    {
        match put {
            Put::New => self.slices.push(slice)?,
            Put::Same => {}
            Put::Other => self.conflict = true,
        }
        Ok(())
    }

    pub(crate) fn outcome(&self) -> Outcome
        ensures { result
            ≡ seen_outcome self.now.conflict (not (length self.now.slices.items == 0)) }
    {
        if self.conflict {
            Outcome::SlicesConflict
        } else if self.slices.is_empty() {
            Outcome::SlicesRepeat
        } else {
            Outcome::SlicesKept
        }
    }
}

/// Keeps the slices of a part, from a number on, except those that are kept.
pub(crate) fn keep_slices(
    alloc: Global,
    slots: &mut Slots,
    first: usize,
    plan: &Plan,
    part: &SlicePart,
) -> Result<Seen, NoMemory>
    requires inside { first + part.now.count ≤ slice_count plan.now }
    requires small { first + part.now.count < 2 ^ 32 }
    requires slots { HasWholeSlots (parameters_of plan.now) slots.old }
    ensures value { let run = run_cut (parameters_of plan.now) first part.now.count part.now.body in
        OnOk result (slots.new ≡ with_run slots.old run) }
    ensures conflict { let run = run_cut (parameters_of plan.now) first part.now.count part.now.body
        in IfOk result (λ seen. seen.conflict ≡ has_conflict slots.old run) }
    ensures slices { let run = run_cut (parameters_of plan.now) first part.now.count part.now.body
        in IfOk result (λ seen. map new_slice_of seen.slices.items
        ≡ run_new (parameters_of plan.now) slots.old run) }
    ensures some { let run = run_cut (parameters_of plan.now) first part.now.count part.now.body in
        IfOk result (λ seen. not (length seen.slices.items == 0) ≡ has_new slots.old run) }
    ensures slots { HasWholeSlots (parameters_of plan.now) slots.new }
{
    let mut rest = part.body.clone()?;
    let mut seen = Seen {
        conflict: false,
        slices: Vec::with_capacity(alloc, usize::from(part.count))?,
    };
    for i in first..first + usize::from(part.count) {
        let Ok(len) = cut(plan.prefix, plan.scaler, rest.as_slice()) else {
            return Ok(seen);
        };
        let bytes = rest.split_to(len)?;
        seen.keep(slots, plan, i, bytes)?;
    }
    Ok(seen)
}
