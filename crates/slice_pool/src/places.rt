ghost use Rattle.std.specs.Prelude.{◌≡◌, ◌<◌, IfOk, IfErr, None, Err};
ghost use Rattle.claim_board.specs.Feeders.{HasOffered, HasAsked, HasAskedBack, HasLeft};
ghost use Rattle.slice_pool.specs.Crews.{HandsOn, bound_at, crew_at};

use crate::crew::Crew;
use crate::team::Stage;
use vc_slice::{Places, RunDone, RunLoad};

// With workers each call is the form's, and waits for nobody.
impl<H, F> Places for Crew<H, F> {
    ghost use Rattle.std.specs.Prelude.{None};

    ghost bound = { λ c. bound_at (crew_at c) };

    ghost told = { λ _. None };

    fn put(&mut self, load: RunLoad) -> Result<u32, RunLoad>
        ensures bound { bound_at (crew_at self.new) ≡ bound_at (crew_at self.old) }
        ensures place { IfOk result (λ place. place < bound_at (crew_at self.old)) }
        ensures back { IfErr result (λ same. same ≡ load) }
        ensures board { HandsOn (λ old new. HasOffered old new load.job result) (result ≡ Err load)
            (crew_at self.old) (crew_at self.new) }
    {
        match &mut self.stage {
            Stage::Working(team) => team.form.put(load),
            _ => Err(load),
        }
    }

    fn take(&mut self, place: u32) -> Option<RunDone>
        requires place { place < bound_at (crew_at self.old) }
        ensures bound { bound_at (crew_at self.new) ≡ bound_at (crew_at self.old) }
        ensures board { HandsOn (λ old new. HasAsked old new place result) (result ≡ None)
            (crew_at self.old) (crew_at self.new) }
    {
        match &mut self.stage {
            Stage::Working(team) => team.form.take(place),
            _ => None,
        }
    }

    fn withdraw(&mut self, place: u32) -> Option<RunLoad>
        requires place { place < bound_at (crew_at self.old) }
        ensures bound { bound_at (crew_at self.new) ≡ bound_at (crew_at self.old) }
        ensures board { HandsOn (λ old new. HasAskedBack old new place result) (result ≡ None)
            (crew_at self.old) (crew_at self.new) }
    {
        match &mut self.stage {
            Stage::Working(team) => team.form.withdraw(place),
            _ => None,
        }
    }

    fn leave(&mut self, place: u32)
        requires place { place < bound_at (crew_at self.old) }
        ensures bound { bound_at (crew_at self.new) ≡ bound_at (crew_at self.old) }
        ensures board { HandsOn (λ old new. HasLeft old new place) Unit
            (crew_at self.old) (crew_at self.new) }
    {
        match &mut self.stage {
            Stage::Working(team) => team.form.leave(place),
            _ => {}
        }
    }
}
