ghost use Rattle.std.specs.Prelude.{◌≡◌, Err, None};

use vc_slice::{Hands, NoPlaces, Places, RunDone, RunLoad};
use vc_types::NoMemory;

/// The places of `NoPlaces`, and no memory for workers.
#[derive(Clone, Copy)]
pub struct NoWorkers;

impl Places for NoWorkers {
    ghost use Rattle.std.specs.Prelude.{None};

    ghost bound = { λ _. 0 };

    ghost told = { λ _. None };

    fn put(&mut self, load: RunLoad) -> Result<u32, RunLoad>
        ensures value { result ≡ Err load }
    {
        NoPlaces.put(load)
    }

    fn take(&mut self, place: u32) -> Option<RunDone>
        ensures value { result ≡ None }
    {
        NoPlaces.take(place)
    }

    fn withdraw(&mut self, place: u32) -> Option<RunLoad>
        ensures value { result ≡ None }
    {
        NoPlaces.withdraw(place)
    }

    fn leave(&mut self, place: u32)
        ensures unchanged { self.new ≡ self.old }
    {
        NoPlaces.leave(place);
    }
}

impl Hands for NoWorkers {
    ghost use Rattle.std.specs.Prelude.{⊤};

    ghost is_free = { λ _. ⊤ };

    fn start_workers(&mut self, _workers: u32) -> Result<(), NoMemory> {
        Err(NoMemory)
    }
}
