ghost use Rattle.std.specs.Prelude.{◌≡◌, ◌≤◌, ◌<◌, ◌+◌, ◌*◌, [], ◌∷◌, ◌++◌, All};
ghost use Rattle.std.specs.Prelude.{None, OnOk, length, map, ℕ, List};
ghost use Rattle.link_model.specs.Sending.{SlicesContent, runs_of_slices};
ghost use Rattle.stream_model.specs.Packing.{AreAllSlices, first_large_slice, slices_in, slices_room};
ghost use Rattle.link_sender.specs.declared.outbox.Outbox.{Outbox};
ghost use Rattle.link_sender.specs.Puts.{PutsDatagrams};
ghost use Rattle.link_sender.specs.Runs.{EndsRun, FitsRun, HoldsSlices, PacksSlices, run_with_slices};
ghost use Rattle.picture_encode.specs.Encoded.{bytes_of_slices};
ghost use Rattle.vc_types.specs.Fields.{joined};
ghost use Rattle.vc_types.specs.SenderSettings.{packing_view};
ghost use Rattle.vc_types.specs.Subbands.{slice_count};
ghost use Rattle.vc_types.specs.TransformParameters.{parameters_of};

use crate::outbox::Outbox;
use crate::parts::{SLICES_HEADS, next_slice};
use crate::picture::Picture;
use picture_encode::EncodedRun;
use std::alloc::Global;
use vc_types::NoMemory;
use vc2_payload::Payload;

/// Whole slices one behind another, which go into one datagram: the number of the first, how many,
/// and their bytes.
#[derive(Drop)]
pub(crate) struct OpenRun {
    pub(crate) first: u32,
    pub(crate) count: u32,
    pub(crate) body: Vec<u8>,
}

impl OpenRun {
    fn new(alloc: Global) -> OpenRun
        ensures numbers { (result.first ≡ 0) × (result.count ≡ 0) }
        ensures body { result.body.items ≡ [] }
    {
        OpenRun {
            first: 0,
            count: 0,
            body: Vec::new(alloc),
        }
    }
}

impl Outbox {
    /// Puts a picture's slices, of which each has room in a datagram: into each datagram as many
    /// whole ones as it has room for.
    pub(crate) fn put_slices(&mut self, p: &Picture<'_>, slices: &[u8]) -> Result<(), NoMemory>
        requires whole { AreAllSlices (parameters_of p.now.plan.now) slices.now }
        requires fits { first_large_slice (slices_room (packing_view p.now.settings)) 0
            (slices_in (parameters_of p.now.plan.now) slices.now) ≡ None }
        ensures { OnOk result (PutsDatagrams p.now
            (map SlicesContent (runs_of_slices (slices_room (packing_view p.now.settings))
            (slices_in (parameters_of p.now.plan.now) slices.now)))
            self.old self.new) }
    {
        let mut run = OpenRun::new(self.alloc);
        let mut rest = slices;
        for _slice in 0..p.plan.slices_x * p.plan.slices_y {
            let (slice, behind) = next_slice(p.plan, rest);
            self.pack(p, &mut run, slice)?;
            rest = behind;
        }
        self.put_run(p, &run)
    }

    /// The same of slices that were encoded, in runs.
    pub(crate) fn put_encoded(
        &mut self,
        p: &Picture<'_>,
        runs: &[EncodedRun],
    ) -> Result<(), NoMemory>
        requires count { length (joined runs.now) ≡ slice_count (parameters_of p.now.plan.now) }
        requires fit { All (FitsRun (packing_view p.now.settings))
            (bytes_of_slices (joined runs.now)) }
        ensures { OnOk result (PutsDatagrams p.now
            (map SlicesContent (runs_of_slices (slices_room (packing_view p.now.settings))
            (bytes_of_slices (joined runs.now))))
            self.old self.new) }
    {
        let mut open = OpenRun::new(self.alloc);
        for run in runs {
            self.pack_all(p, &mut open, run)?;
        }
        self.put_run(p, &open)
    }

    // Adds encoded slices to the open run, one after another.
    fn pack_all(
        &mut self,
        p: &Picture<'_>,
        run: &mut OpenRun,
        slices: &EncodedRun,
    ) -> Result<(), NoMemory>
        requires run { EndsRun (packing_view p.now.settings) (run.old.first + run.old.count)
            run.old }
        requires behind { run.old.first + run.old.count + length slices.now
            ≤ slice_count (parameters_of p.now.plan.now) }
        requires fit { All (FitsRun (packing_view p.now.settings)) (bytes_of_slices slices.now) }
        ensures run { OnOk result (EndsRun (packing_view p.now.settings)
            (run.old.first + run.old.count + length slices.now) run.new) }
        ensures packed { OnOk result ((before : List (List ℕ)) (first : Outbox)
            → PacksSlices p.now before first self.old run.old
            → PacksSlices p.now (before ++ bytes_of_slices slices.now) first self.new run.new) }
    {
        for number in 0..slices.count() {
            self.pack(p, run, slices.slice(number))?;
        }
        Ok(())
    }

    // Adds a slice to the open run. If there is no room for it, the run is put, and the slice
    // begins another.
    fn pack(&mut self, p: &Picture<'_>, run: &mut OpenRun, slice: &[u8]) -> Result<(), NoMemory>
        requires run { EndsRun (packing_view p.now.settings) (run.old.first + run.old.count)
            run.old }
        requires behind { run.old.first + run.old.count
            < slice_count (parameters_of p.now.plan.now) }
        requires fits { FitsRun (packing_view p.now.settings) slice.now }
        ensures run { OnOk result (EndsRun (packing_view p.now.settings)
            (run.old.first + run.old.count + 1) run.new) }
        ensures packed { OnOk result ((slices : List (List ℕ)) (first : Outbox)
            → PacksSlices p.now slices first self.old run.old
            → PacksSlices p.now (slices ++ slice.now ∷ []) first self.new run.new) }
    {
        let room = p.settings.size as usize - SLICES_HEADS;
        if run.body.len() + slice.len() > room {
            self.put_run(p, run)?;
            run.first += run.count;
            run.count = 0;
            run.body.clear();
        }
        run.body.extend_from_slice(slice)?;
        run.count += 1;
        Ok(())
    }

    // Puts a run of slices. The marker is set exactly where the picture's last slice is in it.
    fn put_run(&mut self, p: &Picture<'_>, run: &OpenRun) -> Result<(), NoMemory>
        requires some { 1 ≤ run.now.count }
        requires end { run.now.first + run.now.count ≤ slice_count (parameters_of p.now.plan.now) }
        requires body { run.now.count ≤ length run.now.body.items }
        requires fits { length run.now.body.items + 32 ≤ p.now.settings.size }
        ensures { OnOk result ((slices : List (List ℕ)) → HoldsSlices run.now slices
            → PutsDatagrams p.now (SlicesContent (run_with_slices run.now slices) ∷ [])
            self.old self.new) }
    {
        let payload = Payload::Slices {
            head: self.fragment_head(p),
            count: run.count as u16,
            x: (run.first % p.plan.slices_x) as u16,
            y: (run.first / p.plan.slices_x) as u16,
            from: 20,
            body: &run.body,
        };
        let is_last = run.first + run.count == p.plan.slices_x * p.plan.slices_y;
        self.put(p, is_last, &payload)
    }
}
