ghost use Rattle.std.specs.Prelude.{◌≡◌, ◌≤◌, ◌∷◌, ◌++◌, ℕ, List, [], IfOk, OnOk};
ghost use Rattle.cmd_gen.specs.Comparing.{IsCheckedUpTo};
ghost use Rattle.cmd_gen.specs.Differences.{differences};
ghost use Rattle.link_model.specs.Output.{full_output};
ghost use Rattle.link_receiver.specs.HeardLists.{AskedPlaces};
ghost use Rattle.link_sender.specs.Packing.{bytes_of_all};
ghost use Rattle.link_slices.specs.Calls.{PlacesAreBelow};
ghost use Rattle.vc_types.specs.SenderSettings.{Generating, generating_view};

use crate::Comparison;
use crate::written::Written;
use bytes::Bytes;
use link_receiver::Receiver;
use link_sender::Datagram;
use std::alloc::Global;
use std::thread::Threads;
use vc_slice::Places;
use vc_types::{GenSettings, NoMemory};

/// Receives datagrams, and compares the frames that they let go with the generated ones. What one
/// datagram lets go is kept in memory until it is compared, which no clause says.
#[derive(Drop)]
pub(crate) struct Checker<H> {
    alloc: Global,
    pub(crate) receiver: Receiver<H>,
    comparison: Comparison,
}

impl<H: Threads + Copy> Checker<H> {
    /// Nothing was received.
    pub(crate) fn new(alloc: Global, threads: Option<H>, g: &GenSettings, window: u8) -> Checker<H>
        requires least { 2 ≤ window }
        requires most { window ≤ 8 }
        ensures checked { IsCheckedUpTo (generating_view g.now) window [] result }
        ensures none_out { result.receiver.reception.out ≡ [] }
    {
        Checker {
            alloc,
            receiver: Receiver::new(alloc, threads, window),
            comparison: Comparison::new(g),
        }
    }

    /// Takes datagrams, one after another.
    pub(crate) fn take_all<P: Places>(
        &mut self,
        datagrams: &[Datagram],
        places: &mut P,
    ) -> Result<(), NoMemory>
        requires below { PlacesAreBelow (P.bound places.old) self.old.receiver.reception.out }
        ensures checked { (g : Generating) (window : ℕ) (heard : List (List ℕ))
            → IsCheckedUpTo g window heard self.old
            → OnOk result (IsCheckedUpTo g window (heard ++ bytes_of_all datagrams.now) self.new) }
        ensures told { AskedPlaces (P.told places.old) (P.told places.new) }
        ensures below { PlacesAreBelow (P.bound places.new) self.new.receiver.reception.out }
    {
        for datagram in datagrams {
            self.take(&datagram.bytes, places)?;
        }
        Ok(())
    }

    /// Takes a datagram.
    #[tactic(auto, using(link_receiver::proofs::Asked::asked_none))]
    pub(crate) fn take<P: Places>(
        &mut self,
        datagram: &[u8],
        places: &mut P,
    ) -> Result<(), NoMemory>
        requires below { PlacesAreBelow (P.bound places.old) self.old.receiver.reception.out }
        ensures checked { (g : Generating) (window : ℕ) (heard : List (List ℕ))
            → IsCheckedUpTo g window heard self.old
            → OnOk result (IsCheckedUpTo g window (heard ++ datagram.now ∷ []) self.new) }
        ensures told { AskedPlaces (P.told places.old) (P.told places.new) }
        ensures below { PlacesAreBelow (P.bound places.new) self.new.receiver.reception.out }
    {
        let Ok(datagram) = Bytes::copy_from_slice(self.alloc, datagram) else {
            return Err(NoMemory);
        };
        let mut written = Written::new(self.alloc);
        match self.receiver.enter(datagram, places, &mut written) {
            Ok(_) => {
                self.comparison.take(&written.bytes);
                Ok(())
            }
            Err(_) => Err(NoMemory),
        }
    }

    /// Takes the end, and answers how many samples differ.
    pub(crate) fn finish<P: Places>(&mut self, places: &mut P) -> Result<u64, NoMemory>
        requires below { PlacesAreBelow (P.bound places.old) self.old.receiver.reception.out }
        ensures different { (g : Generating) (window : ℕ) (heard : List (List ℕ))
            → IsCheckedUpTo g window heard self.old
            → IfOk result (λ different. different ≡ differences g (full_output window heard)) }
        ensures told { AskedPlaces (P.told places.old) (P.told places.new) }
    {
        let mut written = Written::new(self.alloc);
        match self.receiver.drain(places, &mut written) {
            Ok(()) => {
                self.comparison.take(&written.bytes);
                Ok(self.comparison.different())
            }
            Err(_) => Err(NoMemory),
        }
    }
}
