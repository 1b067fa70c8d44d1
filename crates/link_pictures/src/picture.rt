ghost use Rattle.std.specs.Prelude.{◌≡◌, ◌+◌, ◌<◌, ◌==◌, ◌∷◌, [], ℕ, IfOk, OnOk, None, Ok, is_some};
ghost use Rattle.std.specs.Prelude.{length, map, slice_index_or, true};
ghost use Rattle.receiver_model.specs.Receptions.{answer_at, answers_with, no_answers, takes_new};
ghost use Rattle.link_slices.specs.Jobs.{answered, answered_run, job_in_run, made_run};
ghost use Rattle.machine_model.specs.Places.{decoding, own_answer};
ghost use Rattle.vc_slice.specs.OfPlan.{IsStripOf, decodings, strip_slices};
ghost use Rattle.link_pictures.specs.SeenAnswers.{HasEntries, seen_answers};
ghost use Rattle.vc_types.specs.SameValues.{same_parameters};
ghost use Rattle.vc_types.specs.TransformParameters.{parameters_of};
ghost use Rattle.picture_build.specs.Kept.{no_slices};

use picture_build::{NotPut, PictureBuilder};
use std::alloc::Global;
use std::marker::Model;
use std::thread::Threads;
use vc_slice::{RunAnswer, RunDone, RunJob, SliceCoeffs, SliceDone, Strip, decode};
use vc_types::{NoMemory, Plan, Unsound};

/// The answers to the slices of one picture, those that came.
#[derive(Drop)]
pub(crate) struct PictureSlices {
    alloc: Global,
    number: u64,
    // The slices whose answer is sound, where the picture is built.
    builder: PictureBuilder,
    // Of each slice why it has no coefficients, if that was the answer.
    unsound: Vec<Option<Unsound>>,
}

impl Model for PictureSlices {
    ghost use Rattle.receiver_model.specs.Receptions.{PictureAnswers};
    ghost use Rattle.link_pictures.specs.SeenAnswers.{HasEntries, seen_answers};

    ghost Value = { PictureAnswers };

    ghost view = { λ s. seen_answers s.number s.builder s.unsound.items };

    ghost invariant = { λ s. HasEntries s.builder s.unsound.items };
}

/// What is kept of a picture's answers.
#[derive(Drop)]
pub(crate) struct SliceParts {
    pub(crate) builder: PictureBuilder,
    pub(crate) unsound: Vec<Option<Unsound>>,
}

impl PictureSlices {
    /// A picture without answers, built where another of its plan was built, if there is such a
    /// builder.
    pub(crate) fn new(
        alloc: Global,
        spare: Option<PictureBuilder>,
        number: u64,
        plan: Plan,
    ) -> Result<PictureSlices, NoMemory>
        ensures value { IfOk result (λ picture.
            picture ≡ no_answers number (parameters_of plan)) }
    {
        let builder = begun(alloc, spare, plan)?;
        let unsound = vec![in alloc; None; (plan.slices_x * plan.slices_y) as usize]?;
        Ok(PictureSlices {
            alloc,
            number,
            builder,
            unsound,
        })
    }

    pub(crate) fn is_of(&self, number: u64) -> bool
        ensures { result ≡ (self.now.number == number) }
    {
        self.number == number
    }

    pub(crate) fn has_plan(&self, plan: &Plan) -> bool
        ensures { result ≡ same_parameters self.now.parameters (parameters_of plan.now) }
    {
        self.builder.has_plan(plan)
    }

    /// Whether a slice has its answer.
    pub(crate) fn has(&self, index: u32) -> bool
        ensures { result ≡ is_some (answer_at self.now.slices index) }
    {
        self.builder.has(index) || why_unsound(&self.unsound, index).is_some()
    }

    /// Keeps the answer to a slice that has none, if it is by the picture's own parameters.
    pub(crate) fn keep(&mut self, done: SliceDone)
        requires once { answer_at self.old.slices done.job.index ≡ None }
        ensures value { self.new ≡ answers_with self.old (answered done) }
    {
        let SliceDone { job, answer } = done;
        if !self.builder.has_plan(&job.plan) {
            return;
        }
        match answer {
            Ok(coeffs) => self.builder.fill(job.index, &coeffs),
            Err(why) => self.unsound[job.index as usize] = Some(why),
        }
    }

    /// Keeps the answers to the slices of a run that have none, if they are by the picture's own
    /// parameters. Memory for another strip is given, where there is some. Where there are threads, runs come
    /// to their places once many wait.
    pub(crate) fn keep_run<H: Threads + Copy>(
        &mut self,
        threads: Option<H>,
        done: RunDone,
    ) -> Result<Option<Vec<i32>>, NoMemory>
        ensures value { OnOk result (self.new ≡ takes_new self.old (answered_run done)) }
    {
        let RunDone { job, answer } = done;
        match answer {
            RunAnswer::Together(strip) => {
                self.keep_strip(&job, strip)?;
                self.place_many(threads);
                Ok(self.spare_room())
            }
            RunAnswer::Apart(answers) => {
                self.keep_each(&job, answers)?;
                Ok(None)
            }
        }
    }

    // The same of a run that was decoded together.
    fn keep_strip(&mut self, job: &RunJob, strip: Strip) -> Result<(), NoMemory>
        requires whole { IsStripOf job.now.plan job.now.first (length job.now.slices.items) strip }
        requires decoded { map Ok (strip_slices job.now.plan job.now.first
            (length job.now.slices.items) strip)
            ≡ decodings job.now.plan job.now.first job.now.slices.items }
        ensures value { OnOk result (self.new ≡ takes_new self.old (made_run job.now)) }
    {
        if !self.builder.has_plan(&job.plan) {
            return Ok(());
        }
        if !self.has_none(job) {
            // A slice has its answer already: the others are decoded again.
            return self.make_run(job);
        }
        self.builder
            .fill_run(job.first, job.slices.len() as u32, strip);
        Ok(())
    }

    // Whether no slice of a run has its answer.
    fn has_none(&self, job: &RunJob) -> bool
        ensures { result ≡ true → (k : ℕ) → k < length job.now.slices.items
            → answer_at self.now.slices (job.now.first + k) ≡ None }
    {
        for k in 0..job.slices.len() {
            if self.has(job.first + k as u32) {
                return false;
            }
        }
        true
    }

    // Keeps the answers to those slices of a run that have none.
    fn keep_each(
        &mut self,
        job: &RunJob,
        answers: Vec<Result<SliceCoeffs, Unsound>>,
    ) -> Result<(), NoMemory>
        requires decoded { answers.items ≡ decodings job.now.plan job.now.first job.now.slices.items }
        ensures value { OnOk result (self.new ≡ takes_new self.old (made_run job.now)) }
    {
        let mut k = 0;
        for answer in answers {
            self.keep_slice(job, k, answer)?;
            k += 1;
        }
        Ok(())
    }

    // Keeps the answer to slice number `k` of a run, if it has none.
    fn keep_slice(
        &mut self,
        job: &RunJob,
        k: usize,
        answer: Result<SliceCoeffs, Unsound>,
    ) -> Result<(), NoMemory>
        requires within { k < length job.now.slices.items }
        requires decoded { answer ≡ decoding (job_in_run job.now k) }
        ensures value { OnOk result
            (self.new ≡ takes_new self.old (own_answer (job_in_run job.now k) ∷ [])) }
    {
        let job = job.slice(k)?;
        self.keep_new(SliceDone { job, answer });
        Ok(())
    }

    // Keeps the answer to a slice, if it has none.
    fn keep_new(&mut self, done: SliceDone)
        ensures { self.new ≡ takes_new self.old (answered done ∷ []) }
    {
        if self.has(done.job.index) {
            return;
        }
        self.keep(done);
    }

    // Decodes the slices of a run that have no answer straight to their places, if they are by the
    // picture's own parameters.
    fn make_run(&mut self, job: &RunJob) -> Result<(), NoMemory>
        ensures value { OnOk result (self.new ≡ takes_new self.old (made_run job.now)) }
    {
        for k in 0..job.slices.len() {
            self.make_slice(job, k)?;
        }
        Ok(())
    }

    // Puts the runs that wait into their places, where there are threads and many wait.
    fn place_many<H: Threads + Copy>(&mut self, threads: Option<H>)
        ensures unchanged { self.new ≡ self.old }
    {
        if let Some(rt) = threads {
            self.builder.place_many(&rt);
        }
    }

    // Memory for another strip, where there is some.
    fn spare_room(&mut self) -> Option<Vec<i32>>
        ensures unchanged { self.new ≡ self.old }
    {
        self.builder.spare_room()
    }

    /// Decodes slice number `k` of a run straight to its place, if it has no answer and is by the
    /// picture's own parameters.
    pub(crate) fn make_slice(&mut self, job: &RunJob, k: usize) -> Result<(), NoMemory>
        requires { k < length job.now.slices.items }
        ensures value { OnOk result
            (self.new ≡ takes_new self.old (own_answer (job_in_run job.now k) ∷ [])) }
    {
        let index = job.first + k as u32;
        if !self.builder.has_plan(&job.plan) || self.has(index) {
            return Ok(());
        }
        match self.builder.put(index, job.slices[k].as_slice()) {
            Ok(()) => Ok(()),
            Err(NotPut::Unsound(why)) => {
                self.unsound[index as usize] = Some(why);
                Ok(())
            }
            Err(NotPut::Wide) => self.decode_slice(job, k),
        }
    }

    // The same, decoded by itself, since it may be too wide for its place.
    fn decode_slice(&mut self, job: &RunJob, k: usize) -> Result<(), NoMemory>
        requires { k < length job.now.slices.items }
        ensures value { OnOk result
            (self.new ≡ takes_new self.old (own_answer (job_in_run job.now k) ∷ [])) }
    {
        self.keep_new(decode(self.alloc, job.slice(k)?)?);
        Ok(())
    }

    pub(crate) fn into_parts(self) -> SliceParts
        ensures entries { HasEntries result.builder result.unsound.items }
        ensures value { (self.parameters ≡ result.builder.parameters)
            × (self ≡ seen_answers self.number result.builder result.unsound.items) }
    {
        let PictureSlices {
            alloc: _,
            number: _,
            builder,
            unsound,
        } = self;
        SliceParts { builder, unsound }
    }
}

/// Why a slice has no coefficients, if that was its answer.
pub(crate) fn why_unsound(unsound: &[Option<Unsound>], index: u32) -> Option<Unsound>
    ensures { result ≡ slice_index_or unsound.now index None }
{
    let index = index as usize;
    if index < unsound.len() {
        unsound[index]
    } else {
        None
    }
}

// A builder that no slice of the plan came to: the spare one, if it is of the same plan.
fn begun(
    alloc: Global,
    spare: Option<PictureBuilder>,
    plan: Plan,
) -> Result<PictureBuilder, NoMemory>
    ensures value { IfOk result (λ builder. builder ≡ no_slices (parameters_of plan)) }
{
    if let Some(mut builder) = spare {
        if builder.has_plan(&plan) {
            builder.restart();
            return Ok(builder);
        }
    }
    PictureBuilder::new(alloc, plan)
}
