ghost use Rattle.std.specs.Prelude.{◌≡◌};
ghost use Rattle.receiver_model.specs.Exchanging.{out_at};
ghost use Rattle.receiver_model.specs.Releasing.{is_of_other};
ghost use Rattle.link_slices.specs.Jobs.{jobs_of_run};

use std::marker::Model;
use vc_slice::RunJob;

/// A run of a picture's slices, and the place where it is.
#[derive(Drop)]
pub(crate) struct OutRun {
    number: u64,
    first: u32,
    count: u32,
    place: u32,
}

impl Model for OutRun {
    ghost use Rattle.std.specs.List.{range_with_len};
    ghost use Rattle.receiver_model.specs.Receptions.{RunOut};

    ghost Value = { RunOut };

    ghost view = { λ r. record {
      number = r.number;
      indices = range_with_len r.first r.count;
      place = r.place;
    } };
}

impl OutRun {
    pub(crate) fn new(job: &RunJob) -> OutRun
        ensures { result ≡ out_at (jobs_of_run job.now) 0 }
    {
        OutRun {
            number: job.number,
            first: job.first,
            count: job.slices.len() as u32,
            place: 0,
        }
    }

    /// The same run, at a place.
    pub(crate) fn with_place(self, place: u32) -> OutRun
        ensures { result ≡ record self { place = place } }
    {
        OutRun { place, ..self }
    }

    pub(crate) fn place(&self) -> u32
        ensures { result ≡ self.now.place }
    {
        self.place
    }

    pub(crate) fn is_of_other(&self, number: u64) -> bool
        ensures { result ≡ is_of_other number self.now }
    {
        self.number != number
    }
}
