ghost use Rattle.std.specs.Prelude.{◌≡◌, ◌≤◌, ◌-◌, ◌++◌, ◌∷◌, [], ℕ, List, length, IfOk, OnSome, ◌<◌, ◌^◌};
ghost use Rattle.std.specs.Prelude.{None, Some, MatchOption, slice_get};
ghost use Rattle.vc_ports.specs.MemoryWires.{room_of};

use std::alloc::Global;
use std::marker::Model;
use vc_types::NoMemory;

// Where a byte string stands in the bytes of all.
#[derive(Clone, Copy)]
pub(crate) struct Piece {
    pub(crate) from: usize,
    pub(crate) to: usize,
}

// Byte strings that are kept one behind the other, in memory that is taken when the store is made.
#[derive(Drop)]
pub(crate) struct Store {
    bytes: Vec<u8>,
    pieces: Vec<Piece>,
    room: usize,
}

impl Model for Store {
    ghost use Rattle.std.specs.Prelude.{◌≡◌, ◌≤◌, ◌+◌, ◌*◌, All, map, length, vec_len, vec_capacity};
    ghost use Rattle.vc_ports.specs.MemoryWires.{Stored};
    ghost use Rattle.vc_ports.specs.Store.{piece_of, LiesWithin};

    ghost Value = { Stored };

    ghost view = { λ s. record {
      pieces = map (piece_of s.bytes.items) s.pieces.items;
      room = s.room;
    } };

    ghost invariant = { λ s. All (LiesWithin s.bytes.items) s.pieces.items
        × (vec_len s.bytes + s.room ≤ vec_capacity s.bytes)
        × (2 * vec_len s.pieces + s.room ≤ 2 * vec_capacity s.pieces + 1)
        × (vec_len s.bytes ≡ length s.bytes.items) };
}

impl Store {
    // A store for `room` bytes. Each string takes its length and 2.
    pub(crate) fn new(alloc: Global, room: usize) -> Result<Store, NoMemory>
        ensures { IfOk result (λ s. s ≡ record { pieces = []; room = room }) }
    {
        Ok(Store {
            bytes: Vec::with_capacity(alloc, room)?,
            pieces: Vec::with_capacity(alloc, room / 2)?,
            room,
        })
    }

    pub(crate) fn push(&mut self, bytes: &[u8])
        requires room { room_of bytes.now ≤ self.old.room }
        ensures { self.new ≡ record {
          pieces = self.old.pieces ++ bytes.now ∷ [];
          room = self.old.room - room_of bytes.now;
        } }
    {
        let from = self.bytes.len();
        let to = from + bytes.len();
        match (
            self.bytes.extend_from_slice(bytes),
            self.pieces.push(Piece { from, to }),
        ) {
            (Ok(()), Ok(())) => self.room -= bytes.len() + 2,
            _ => unreachable!(),
        }
    }

    pub(crate) fn get(&self, i: usize) -> Option<&[u8]>
        ensures piece { MatchOption result (slice_get self.now.pieces i ≡ None)
            (λ piece. slice_get self.now.pieces i ≡ Some piece.now) }
        ensures few { OnSome result (i < 2 ^ 63) }
    {
        let piece = self.pieces.get(i)?;
        Some(&self.bytes[piece.from..piece.to])
    }
}
