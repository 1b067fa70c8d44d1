ghost use Rattle.std.specs.Prelude.{◌≡◌, [], ◌<◌, length, position, IfSome, OnOk};
ghost use Rattle.cmd_probe.specs.Steps.{commoner_of, commonest, has_ticks, with_step};

use crate::counting::one_more;
use std::alloc::Global;
use std::marker::Model;
use vc_types::NoMemory;

// So many different steps are counted.
const MOST_STEPS: usize = 16;

/// A difference of two neighbouring pictures' timestamps, and how often it came.
#[derive(Clone, Copy)]
pub(crate) struct Step {
    pub(crate) ticks: u32,
    pub(crate) times: u64,
}

/// The differences of neighbouring pictures' timestamps, in the order in which they came first.
#[derive(Drop)]
pub(crate) struct Steps {
    list: Vec<Step>,
}

impl Model for Steps {
    ghost use Rattle.std.specs.Prelude.{List};
    ghost use Rattle.cmd_probe.specs.declared.steps.Step.{Step};

    ghost Value = { List Step };

    ghost view = { λ steps. steps.list.items };
}

impl Steps {
    pub(crate) fn new(alloc: Global) -> Steps
        ensures { result ≡ [] }
    {
        Steps {
            list: Vec::new(alloc),
        }
    }

    /// Counts a step, which is one of those that came, or is a new one while there are few.
    #[tactic(auto, unfolding(crate::specs::Steps::with_step))]
    pub(crate) fn count(&mut self, ticks: u32) -> Result<(), NoMemory>
        ensures { OnOk result (self.new ≡ with_step self.old ticks) }
    {
        match place_of(&self.list, ticks) {
            Some(place) => {
                let step = &mut self.list[place];
                step.times = one_more(step.times);
                Ok(())
            }
            None if self.list.len() < MOST_STEPS => {
                self.list.push(Step { ticks, times: 1 })?;
                Ok(())
            }
            None => Ok(()),
        }
    }

    /// The one that came most often, the first of several; None where none came.
    pub(crate) fn commonest(&self) -> Option<Step>
        ensures { result ≡ commonest self.now }
    {
        commonest(&self.list)
    }
}

#[tactic(auto, using(std::proofs::lemmas::List::Sums::fold_more))]
fn commonest(steps: &[Step]) -> Option<Step>
    ensures { result ≡ commonest steps.now }
{
    let mut best: Option<Step> = None;
    for step in steps {
        best = commoner_of(best, step);
    }
    best
}

fn place_of(steps: &[Step], ticks: u32) -> Option<usize>
    ensures value { result ≡ position (has_ticks ticks) steps.now }
    ensures within { IfSome result (λ place. place < length steps.now) }
{
    steps.iter().position(|step| step.ticks == ticks)
}

// The commoner one, the first of two.
fn commoner_of(best: Option<Step>, step: &Step) -> Option<Step>
    ensures { result ≡ commoner_of best step.now }
{
    match best {
        Some(best) if step.times <= best.times => Some(best),
        _ => Some(*step),
    }
}
