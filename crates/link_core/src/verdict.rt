ghost use Rattle.std.specs.Prelude.{◌≡◌, [], ◌∷◌, if◌then◌else◌, Ok, Err};
ghost use Rattle.link_core.specs.Events.{verdict};
ghost use Rattle.link_core.specs.declared.event.StepRefusal.TheVariants.{NotLegal};

use crate::event::StepRefusal;

// The condition of this number isn't broken.
fn holds(condition: bool, number: u8) -> Result<(), StepRefusal>
    ensures { result ≡ (if condition then Ok tt else Err (NotLegal number)) }
{
    if condition {
        Ok(())
    } else {
        Err(StepRefusal::NotLegal { condition: number })
    }
}

/// One condition isn't broken.
pub(crate) fn all_of_1(first: bool) -> Result<(), StepRefusal>
    ensures { result ≡ verdict (first ∷ []) }
{
    holds(first, 1)
}

/// Neither of two conditions is broken.
pub(crate) fn all_of_2(first: bool, second: bool) -> Result<(), StepRefusal>
    ensures { result ≡ verdict (first ∷ second ∷ []) }
{
    holds(first, 1)?;
    holds(second, 2)
}

/// None of five conditions is broken.
pub(crate) fn all_of_5(
    first: bool,
    second: bool,
    third: bool,
    fourth: bool,
    fifth: bool,
) -> Result<(), StepRefusal>
    ensures { result ≡ verdict (first ∷ second ∷ third ∷ fourth ∷ fifth ∷ []) }
{
    holds(first, 1)?;
    holds(second, 2)?;
    holds(third, 3)?;
    holds(fourth, 4)?;
    holds(fifth, 5)
}
