ghost use Rattle.std.specs.Prelude.{◌≡◌, ◌++◌, ◌∷◌, [], List, IfOk, IsTrue, OnOk, Some, is_some, fold, map};
ghost use Rattle.std.specs.Prelude.{if◌then◌else◌};
ghost use Rattle.std.specs.Option.{option_copied, option_map};
ghost use Rattle.link_model.specs.Books.{nothing_gathered, gathers, book_of, book_takes};
ghost use Rattle.link_model.specs.Books.{book_outcome, book_plan, book_slice, book_whole};
ghost use Rattle.link_model.specs.Judgement.{part_outcome};
ghost use Rattle.link_model.specs.Session.{Part, ParamsPart, SlicesPart};
ghost use Rattle.link_gather.specs.NewSlices.{new_slices};
ghost use Rattle.link_gather.specs.Views.{new_slice_of, slice_part_of};
ghost use Rattle.vc_types.specs.SameValues.{same_parameters};
ghost use Rattle.vc_types.specs.SequenceHeader.{Sequence, sequence_of};
ghost use Rattle.vc_types.specs.TransformParameters.{parameters_of};

use crate::gathering::Gathering;
use crate::part::{SlicePart, Taken};
use bytes::Bytes;
use link_model::Outcome;
use std::alloc::Global;
use std::marker::Model;
use vc_params::read_params;
use vc_types::{Header, NoMemory, Plan};

// How many parts of slices wait for their picture's parameters.
const WAITING_LIMIT: usize = 16384;

/// What one picture keeps of its parts, in whatever order they come: the first transform parameters that
/// are accepted, and of each slice the first copy. After `NoMemory` nothing is promised of it.
#[derive(Drop)]
pub struct PictureBook {
    alloc: Global,
    header: Header,
    waiting: Vec<SlicePart>,
    gathering: Option<Gathering>,
}

impl Model for PictureBook {
    ghost use Rattle.std.specs.Prelude.{map};
    ghost use Rattle.link_model.specs.Books.{Book};
    ghost use Rattle.link_gather.specs.Views.{slice_part_of};
    ghost use Rattle.vc_types.specs.SequenceHeader.{sequence_of};

    ghost Value = { Book };

    ghost view = { λ b. record {
      sequence = sequence_of b.header;
      waiting = map slice_part_of b.waiting.items;
      gathered = b.gathering;
    } };
}

impl PictureBook {
    /// The book of a picture of this header's sequence, without parts.
    #[tactic(auto, unfolding(link_model::specs::Books::book_of, link_model::specs::Kept::own, link_model::specs::Kept::split_parts))]
    pub fn new(alloc: Global, h: Header) -> PictureBook
        ensures { result ≡ book_of (sequence_of h) [] }
    {
        PictureBook {
            alloc,
            header: h,
            waiting: Vec::new(alloc),
            gathering: None,
        }
    }

    /// Takes transform parameters: keeps them where there are none yet, and then takes the slices that
    /// waited.
    pub fn take_params(&mut self, body: Bytes) -> Result<Outcome, NoMemory>
        ensures outcome { IfOk result
            (λ outcome. outcome ≡ book_outcome self.old (ParamsPart body)) }
        ensures value { OnOk result (self.new ≡ book_takes self.old (ParamsPart body)) }
        // Of a list of parts.
        ensures judged { (s : Sequence) (parts : List Part) → self.old ≡ book_of s parts
            → IfOk result (λ outcome. outcome ≡ part_outcome s parts (ParamsPart body)) }
        ensures stands { (s : Sequence) (parts : List Part) → self.old ≡ book_of s parts
            → OnOk result (self.new ≡ book_of s (parts ++ ParamsPart body ∷ [])) }
    {
        let taken = self.enter_params(body)?;
        Ok(taken.outcome)
    }

    /// The same, and answers the slices that waited, if the picture has them since then.
    #[tactic(auto, unfolding(link_model::specs::Books::book_takes, link_model::specs::Books::book_outcome))]
    pub fn enter_params(&mut self, mut body: Bytes) -> Result<Taken, NoMemory>
        ensures outcome { IfOk result
            (λ taken. taken.outcome ≡ book_outcome self.old (ParamsPart body)) }
        ensures value { OnOk result (self.new ≡ book_takes self.old (ParamsPart body)) }
        ensures slices { IfOk result
            (λ taken. map new_slice_of taken.slices.items ≡ new_slices self.old self.new) }
    {
        let Ok((plan, used)) = read_params(&self.header, body.as_slice()) else {
            return Ok(Taken::nothing(self.alloc, Outcome::ParamsBad));
        };
        if let Some(gathering) = &self.gathering {
            let outcome = params_again(&gathering.plan(), &plan);
            return Ok(Taken::nothing(self.alloc, outcome));
        }
        body.truncate(used);
        let gathering = gathered(self.alloc, plan, body, &self.waiting)?;
        let slices = gathering.slices(self.alloc)?;
        self.gathering = Some(gathering);
        self.waiting = Vec::new(self.alloc);
        Ok(Taken {
            outcome: Outcome::ParamsKept,
            slices,
        })
    }

    /// Takes slices: keeps those that aren't kept yet, or lets the part wait for parameters.
    pub fn take_slices(&mut self, part: SlicePart) -> Result<Outcome, NoMemory>
        ensures outcome { IfOk result
            (λ outcome. outcome ≡ book_outcome self.old (SlicesPart (slice_part_of part))) }
        ensures value { OnOk result
            (self.new ≡ book_takes self.old (SlicesPart (slice_part_of part))) }
        // Of a list of parts.
        ensures judged { (s : Sequence) (parts : List Part) → self.old ≡ book_of s parts
            → IfOk result
            (λ outcome. outcome ≡ part_outcome s parts (SlicesPart (slice_part_of part))) }
        ensures stands { (s : Sequence) (parts : List Part) → self.old ≡ book_of s parts
            → OnOk result (self.new ≡ book_of s (parts ++ SlicesPart (slice_part_of part) ∷ [])) }
    {
        let taken = self.enter_slices(part)?;
        Ok(taken.outcome)
    }

    /// The same, and answers those that weren't kept yet.
    #[tactic(auto, unfolding(link_model::specs::Books::book_takes, link_model::specs::Books::book_outcome))]
    pub fn enter_slices(&mut self, part: SlicePart) -> Result<Taken, NoMemory>
        ensures outcome { IfOk result
            (λ taken. taken.outcome ≡ book_outcome self.old (SlicesPart (slice_part_of part))) }
        ensures value { OnOk result
            (self.new ≡ book_takes self.old (SlicesPart (slice_part_of part))) }
        ensures slices { IfOk result
            (λ taken. map new_slice_of taken.slices.items ≡ new_slices self.old self.new) }
    {
        match &mut self.gathering {
            Some(gathering) => gathering.take(self.alloc, &part),
            None => {
                if self.waiting.len() >= WAITING_LIMIT {
                    return Ok(Taken::nothing(self.alloc, Outcome::SlicesFull));
                }
                self.waiting.push(part)?;
                Ok(Taken::nothing(self.alloc, Outcome::SlicesPending))
            }
        }
    }

    /// The parameters that are kept.
    pub fn plan(&self) -> Option<Plan>
        ensures { option_map parameters_of result
            ≡ option_map (λ plan. plan.parameters) (book_plan self.now) }
    {
        match &self.gathering {
            Some(gathering) => Some(gathering.plan()),
            None => None,
        }
    }

    /// The bytes that are kept of a slice.
    pub fn slice(&self, index: u32) -> Option<&Bytes>
        ensures { option_copied result ≡ book_slice self.now index }
    {
        match &self.gathering {
            Some(gathering) => gathering.slice(index),
            None => None,
        }
    }

    /// Whether there are parameters and every slice.
    pub fn is_complete(&self) -> bool
        ensures { result ≡ is_some (book_whole self.now) }
    {
        match &self.gathering {
            Some(gathering) => gathering.is_complete(),
            None => false,
        }
    }

    /// The bytes of the parameters, and behind them the slices in raster order.
    pub fn whole_bytes(&self) -> Result<Vec<u8>, NoMemory>
        requires { IsTrue (is_some (book_whole self.now)) }
        ensures { IfOk result (λ bytes. book_whole self.now ≡ Some bytes.items) }
    {
        match &self.gathering {
            Some(gathering) => gathering.whole_bytes(self.alloc),
            None => Ok(Vec::new(self.alloc)),
        }
    }
}

// What becomes of parameters that are accepted after those that are kept.
fn params_again(kept: &Plan, plan: &Plan) -> Outcome
    ensures { result ≡ (if same_parameters (parameters_of kept.now) (parameters_of plan.now)
        then Outcome.ParamsRepeat else Outcome.ParamsConflict) }
{
    if kept.is_same(plan) {
        Outcome::ParamsRepeat
    } else {
        Outcome::ParamsConflict
    }
}

// What is gathered of the parts that waited.
fn gathered(
    alloc: Global,
    plan: Plan,
    bytes: Bytes,
    waiting: &[SlicePart],
) -> Result<Gathering, NoMemory>
    ensures { IfOk result
        (λ g. g ≡ fold gathers
        (nothing_gathered (record { parameters = parameters_of plan; bytes = bytes }))
        (map slice_part_of waiting.now)) }
{
    let mut gathering = Gathering::new(alloc, plan, bytes)?;
    for part in waiting {
        let _taken = gathering.take(alloc, part)?;
    }
    Ok(gathering)
}
