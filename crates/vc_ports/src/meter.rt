ghost use Rattle.std.specs.Prelude.{◌≡◌, true};
ghost use Rattle.vc_ports.specs.Faults.{HasCause};
ghost use Rattle.vc_ports.specs.MemoryWires.{meter_refuses, meter_after};

use std::marker::Model;

// Counts calls, and refuses those of the given numbers, counted from 1, and those that would pass the room.
#[derive(Drop)]
pub(crate) struct Meter {
    pub(crate) room: usize,
    pub(crate) fails: Vec<u64>,
    pub(crate) calls: u64,
    pub(crate) faults: u64,
}

impl Model for Meter {
    ghost use Rattle.vc_ports.specs.MemoryWires.{Metered};

    ghost Value = { Metered };

    ghost view = { λ m. record {
      room = m.room;
      fails = m.fails.items;
      calls = m.calls;
      faults = m.faults;
    } };
}

impl Meter {
    // Whether a call that takes so many bytes of the room is one to fail.
    pub(crate) fn refuses(&mut self, bytes: usize) -> bool
        ensures value { result ≡ meter_refuses self.old bytes }
        ensures cause { HasCause self.old.faults self.new.faults (result ≡ true) }
        ensures state { self.new ≡ meter_after self.old bytes }
    {
        self.calls = self.calls.saturating_add(1);
        if self.fails.contains(&self.calls) || self.room < bytes {
            self.faults = self.faults.saturating_add(1);
            return true;
        }
        self.room -= bytes;
        false
    }
}
