ghost use Rattle.std.specs.Prelude.{◌≡◌, ◌<◌, IfOk, OnOk, OnErr, None, is_some, length, replicate};
ghost use Rattle.std.specs.List.{list_all};
ghost use Rattle.std.specs.Option.{option_copied};
ghost use Rattle.link_model.specs.Books.{slot_at};
ghost use Rattle.link_gather.specs.Filling.{put_in, put_result};

use bytes::Bytes;
use std::alloc::Global;
use std::marker::Model;
use vc_types::NoMemory;

/// The slices of a picture in raster order, those that came, and how many these are.
#[derive(Drop)]
pub(crate) struct Slots {
    items: Vec<Option<Bytes>>,
    kept: usize,
}

impl Model for Slots {
    ghost use Rattle.std.specs.Prelude.{◌≡◌, ℕ, List, Option, is_some};
    ghost use Rattle.std.specs.List.{count_by};

    ghost Value = { List (Option (List ℕ)) };

    ghost view = { λ s. s.items.items };

    ghost invariant = { λ s. s.kept ≡ count_by is_some s.items.items };
}

/// What became of a slice that was put into its slot.
#[derive(Clone, Copy, PartialEq, Eq)]
pub(crate) enum Put {
    New,
    /// It is kept already, with the same bytes.
    Same,
    /// It is kept already, with other bytes.
    Other,
}

impl Slots {
    /// So many slots without a slice.
    pub(crate) fn new(alloc: Global, count: u32) -> Result<Slots, NoMemory>
        ensures { IfOk result (λ s. s ≡ replicate count None) }
    {
        let mut items = Vec::with_capacity(alloc, count as usize)?;
        for _ in 0..count {
            items.push(None)?;
        }
        Ok(Slots { items, kept: 0 })
    }

    pub(crate) fn len(&self) -> usize
        ensures { result ≡ length self.now }
    {
        self.items.len()
    }

    pub(crate) fn get(&self, i: usize) -> Option<&Bytes>
        ensures { option_copied result ≡ slot_at self.now i }
    {
        self.items.get(i)?.as_ref()
    }

    /// Keeps a slice, unless its slot has one. The bytes are shared.
    pub(crate) fn put(&mut self, i: usize, slice: &Bytes) -> Result<Put, NoMemory>
        requires { i < length self.old }
        ensures value { OnOk result (self.new ≡ put_in self.old i slice.now) }
        ensures result { IfOk result (λ put. put ≡ put_result (slot_at self.old i) slice.now) }
        ensures unchanged { OnErr result (self.new ≡ self.old) }
    {
        match self.get(i) {
            Some(kept) => Ok(compare(kept, slice)),
            None => {
                let copy = slice.clone()?;
                self.items[i] = Some(copy);
                self.kept += 1;
                Ok(Put::New)
            }
        }
    }

    /// Whether every slot has its slice.
    pub(crate) fn is_full(&self) -> bool
        ensures { result ≡ list_all is_some self.now }
    {
        self.kept == self.items.len()
    }
}

fn compare(kept: &Bytes, slice: &Bytes) -> Put
    ensures { result ≡ put_result (Some kept.now) slice.now }
{
    if kept.as_slice() == slice.as_slice() {
        Put::Same
    } else {
        Put::Other
    }
}
