ghost use Rattle.std.specs.Prelude.{◌≡◌, ◌<◌, ◌==◌, ◌∷◌, [], ℕ, List, None, Some, IfOk};
ghost use Rattle.std.specs.Prelude.{IfSome, OnOk, is_some, length, position};
ghost use Rattle.std.specs.Option.{option_and_then, option_copied, option_map, option_map_or};
ghost use Rattle.receiver_model.specs.Receptions.{PictureAnswers, answer_at, answers_at};
ghost use Rattle.receiver_model.specs.Receptions.{answers_without, keeps_answer, keeps_new, kept_answer};
ghost use Rattle.receiver_model.specs.Releasing.{answers_by, book_planes};
ghost use Rattle.receiver_model.specs.WholeBooks.{ArePicturePlanes, IsWholeBook};
ghost use Rattle.link_pictures.specs.Completing.{IsWholeBySome, IsWholeIfAny, IsWholePlan};
ghost use Rattle.link_slices.specs.Jobs.{answered, answered_run, job_in_run};
ghost use Rattle.machine_model.specs.Places.{own_answer};
ghost use Rattle.link_pictures.specs.SeenAnswers.{answers_of_plan, is_of_number, with_picture};
ghost use Rattle.vc_types.specs.Planes.{planes_in};
ghost use Rattle.vc_types.specs.SequenceHeader.{Sequence};
ghost use Rattle.vc_types.specs.TransformParameters.{parameters_of};

use crate::completing::Source;
use crate::picture::{PictureSlices, SliceParts};
use link_gather::PictureBook;
use picture_build::PictureBuilder;
use std::alloc::Global;
use std::marker::Model;
use std::thread::Threads;
use vc_slice::{RunDone, RunJob, SliceDone};
use vc_types::{NoMemory, Plan, Plane};

/// The answers to slices of pictures that aren't released. Contracts see, of each picture that has
/// one, its number, its parameters and its answers. A picture reserves 8 bytes a coefficient from its
/// first answer on, half of which stay untouched until a coefficient may not fit 32 bits, and keeps the
/// strips of its runs until they come to their places. The memory of one picture is kept for the next of the
/// same plan, that of its strips for other runs. Where there are threads, runs come to their places once many
/// wait, and a picture is transformed in four parts, both side by side, by join. Where there are none, all
/// runs wait until their picture is transformed, and that is in turn; a receiver without threads has no runs.
/// After `NoMemory` nothing is promised of them.
#[derive(Drop)]
pub struct Answers<H> {
    alloc: Global,
    threads: Option<H>,
    pictures: Vec<PictureSlices>,
    // Of a picture that is done with.
    spare: Option<PictureBuilder>,
}

impl<H> Model for Answers<H> {
    ghost use Rattle.std.specs.Prelude.{List};
    ghost use Rattle.receiver_model.specs.Receptions.{PictureAnswers};

    ghost Value = { List PictureAnswers };

    ghost view = { λ a. a.pictures.items };
}

impl<H> Answers<H> {
    /// No answers.
    pub fn new(alloc: Global, threads: Option<H>) -> Answers<H>
        ensures { result ≡ [] }
    {
        Answers {
            alloc,
            threads,
            pictures: Vec::new(alloc),
            spare: None,
        }
    }

    /// Whether a slice of a picture has its answer.
    pub fn has(&self, number: u64, index: u32) -> bool
        ensures { result ≡ is_some (kept_answer self.now number index) }
    {
        match place_of(&self.pictures, number) {
            Some(place) => self.pictures[place].has(index),
            None => false,
        }
    }

    /// Keeps the answer to a slice that has none. It is thrown away where its picture has answers
    /// by other parameters.
    pub fn keep(&mut self, done: SliceDone) -> Result<(), NoMemory>
        requires once { kept_answer self.old done.job.number done.job.index ≡ None }
        ensures value { OnOk result (self.new ≡ keeps_answer self.old (answered done)) }
    {
        match place_of(&self.pictures, done.job.number) {
            Some(place) => self.pictures[place].keep(done),
            None => {
                let spare = self.spare.take();
                let mut picture = PictureSlices::new(
                    self.alloc,
                    spare,
                    done.job.number,
                    done.job.plan,
                )?;
                picture.keep(done);
                self.pictures.push(picture)?;
            }
        }
        Ok(())
    }

    /// Decodes slice number `k` of a run, if it has no answer, and keeps its answer, as `keep` does.
    pub fn make_slice(&mut self, job: &RunJob, k: usize) -> Result<(), NoMemory>
        requires { k < length job.now.slices.items }
        ensures value { OnOk result
            (self.new ≡ keeps_new self.old (own_answer (job_in_run job.now k) ∷ [])) }
    {
        let place = self.place_for(job)?;
        self.pictures[place].make_slice(job, k)
    }

    // The place of a run's picture, which is new if there was none.
    fn place_for(&mut self, job: &RunJob) -> Result<usize, NoMemory>
        ensures place { IfOk result
            (λ place. position (is_of_number job.now.number) self.new ≡ Some place) }
        ensures value { OnOk result (self.new
            ≡ with_picture self.old job.now.number (parameters_of job.now.plan)) }
    {
        if let Some(place) = place_of(&self.pictures, job.number) {
            return Ok(place);
        }
        let spare = self.spare.take();
        let picture = PictureSlices::new(self.alloc, spare, job.number, job.plan)?;
        self.pictures.push(picture)?;
        Ok(self.pictures.len() - 1)
    }

    /// The memory of planes that are done with serves a later picture.
    pub fn reuse(&mut self, planes: [Plane; 3])
        ensures unchanged { self.new ≡ self.old }
    {
        if let Some(builder) = &mut self.spare {
            builder.keep_planes(planes);
        }
    }

    /// Whether there are planes of a picture, which aren't built. Its answers are forgotten, as by
    /// `take_planes`.
    pub fn take_soundness(
        &mut self,
        number: u64,
        book: Option<&PictureBook>,
    ) -> Result<bool, NoMemory>
        requires whole { IsWholeBySome (option_copied book) }
        ensures sound { IfOk result (λ sound. sound ≡ is_some
            (option_and_then (book_planes self.old number) (option_copied book.entry))) }
        ensures value { OnOk result (self.new ≡ answers_without self.old number) }
    {
        let kept = taken(&mut self.pictures, number);
        match book {
            Some(book) => released_soundness(self.alloc, &mut self.spare, kept, number, book),
            None => {
                keep_spare(&mut self.spare, kept);
                Ok(false)
            }
        }
    }
}

impl<H: Threads + Copy> Answers<H> {
    /// Keeps the answers to the slices of a run that have none, as `keep` does. Memory for another strip is
    /// given, where there is some.
    pub fn keep_run(&mut self, done: RunDone) -> Result<Option<Vec<i32>>, NoMemory>
        ensures value { OnOk result (self.new ≡ keeps_new self.old (answered_run done)) }
    {
        let place = self.place_for(&done.job)?;
        self.pictures[place].keep_run(self.threads, done)
    }

    /// The planes of a picture whose book is complete: by the answers to its slices, and of the
    /// others by what their bytes decode to. There are none where a slice is unsound. The
    /// picture's answers are forgotten, also where its book isn't complete.
    pub fn take_planes(
        &mut self,
        number: u64,
        book: Option<&PictureBook>,
    ) -> Result<Option<[Plane; 3]>, NoMemory>
        requires whole { IsWholeBySome (option_copied book) }
        ensures planes { IfOk result (λ planes. option_map planes_in planes
            ≡ option_and_then (book_planes self.old number) (option_copied book.entry)) }
        ensures value { OnOk result (self.new ≡ answers_without self.old number) }
        ensures shape { (s : Sequence) → IsWholeIfAny s (option_copied book.entry)
            → IfOk result (λ planes. IfSome planes (λ p. ArePicturePlanes s (planes_in p))) }
    {
        let kept = taken(&mut self.pictures, number);
        match book {
            Some(book) => released(
                self.alloc,
                self.threads,
                &mut self.spare,
                kept,
                number,
                book,
            ),
            None => {
                keep_spare(&mut self.spare, kept);
                Ok(None)
            }
        }
    }
}

// The first picture of this number.
fn place_of(pictures: &[PictureSlices], number: u64) -> Option<usize>
    ensures { result ≡ position (is_of_number number) pictures.now }
{
    pictures.iter().position(|picture| picture.is_of(number))
}

// Takes what is kept of a picture.
fn taken(pictures: &mut Vec<PictureSlices>, number: u64) -> Option<PictureSlices>
    ensures taken { result ≡ answers_at pictures.old.items number }
    ensures others { pictures.new.items ≡ answers_without pictures.old.items number }
{
    match place_of(pictures, number) {
        Some(place) => {
            let picture = pictures.remove(place);
            pictures.retain(|other| !other.is_of(number));
            Some(picture)
        }
        None => None,
    }
}

// Keeps the memory of a picture that is done with.
fn keep_spare(spare: &mut Option<PictureBuilder>, kept: Option<PictureSlices>) {
    if let Some(picture) = kept {
        *spare = Some(picture.into_parts().builder);
    }
}

// The planes of a picture by its book, and by the answers to its slices that are kept.
fn released<H: Threads + Copy>(
    alloc: Global,
    threads: Option<H>,
    spare: &mut Option<PictureBuilder>,
    kept: Option<PictureSlices>,
    number: u64,
    book: &PictureBook,
) -> Result<Option<[Plane; 3]>, NoMemory>
    requires whole { (s : Sequence) × IsWholeBook s book.now }
    ensures planes { (answers : List PictureAnswers) → answers_at answers number ≡ kept
        → IfOk result (λ planes. option_map planes_in planes
        ≡ book_planes answers number book.now) }
{
    match whole_plan(book) {
        Some(plan) => {
            let picture = picture_of(alloc, spare, kept, number, plan)?;
            let SliceParts {
                mut builder,
                unsound,
            } = picture.into_parts();
            let source = Source {
                alloc,
                plan,
                number,
                book,
            };
            let planes = source.planes(threads, &unsound, &mut builder)?;
            *spare = Some(builder);
            Ok(planes)
        }
        None => {
            keep_spare(spare, kept);
            Ok(None)
        }
    }
}

// Whether there are such planes.
fn released_soundness(
    alloc: Global,
    spare: &mut Option<PictureBuilder>,
    kept: Option<PictureSlices>,
    number: u64,
    book: &PictureBook,
) -> Result<bool, NoMemory>
    requires whole { (s : Sequence) × IsWholeBook s book.now }
    ensures sound { (answers : List PictureAnswers) → answers_at answers number ≡ kept
        → IfOk result (λ sound. sound ≡ is_some (book_planes answers number book.now)) }
{
    match whole_plan(book) {
        Some(plan) => {
            let picture = picture_of(alloc, spare, kept, number, plan)?;
            let SliceParts {
                mut builder,
                unsound,
            } = picture.into_parts();
            let source = Source {
                alloc,
                plan,
                number,
                book,
            };
            let is_sound = source.is_sound(&unsound, &mut builder)?;
            *spare = Some(builder);
            Ok(is_sound)
        }
        None => {
            keep_spare(spare, kept);
            Ok(false)
        }
    }
}

// The plan of a picture whose book is complete.
fn whole_plan(book: &PictureBook) -> Option<Plan>
    ensures { IsWholePlan book.now (option_map parameters_of result) }
{
    if book.is_complete() {
        book.plan()
    } else {
        None
    }
}

// The answers that are kept, if they are by this plan; none otherwise.
fn picture_of(
    alloc: Global,
    spare: &mut Option<PictureBuilder>,
    kept: Option<PictureSlices>,
    number: u64,
    plan: Plan,
) -> Result<PictureSlices, NoMemory>
    ensures plan { IfOk result (λ picture. picture.parameters ≡ parameters_of plan) }
    ensures answers { IfOk result (λ picture. (i : ℕ) → answer_at picture.slices i
        ≡ answer_at (option_map_or (answers_by (parameters_of plan)) kept []) i) }
{
    match of_plan(kept, &plan) {
        Some(picture) => Ok(picture),
        None => PictureSlices::new(alloc, spare.take(), number, plan),
    }
}

fn of_plan(kept: Option<PictureSlices>, plan: &Plan) -> Option<PictureSlices>
    ensures { result ≡ answers_of_plan (parameters_of plan.now) kept }
{
    let picture = kept?;
    if picture.has_plan(plan) {
        Some(picture)
    } else {
        None
    }
}
