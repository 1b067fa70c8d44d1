ghost use Rattle.std.specs.Prelude.{◌≡◌, ◌≤◌, ◌++◌, ◌∷◌, ℕ, [], List, false};
ghost use Rattle.machine_model.specs.Feeders.{Feeder};
ghost use Rattle.link_model.specs.Judgement.{outcome_behind, tally_of};
ghost use Rattle.machine_model.specs.Machine.{Enter, Finish};
ghost use Rattle.machine_model.specs.Next.{next_feeder};
ghost use Rattle.link_model.specs.Output.{output_so_far, full_output};
ghost use Rattle.link_model.specs.declared.outcome.Outcome.{Outcome};
ghost use Rattle.receiver_model.specs.Entering.{datagram_bytes, end_bytes};
ghost use Rattle.receiver_model.specs.Exchanging.{dones_in};
ghost use Rattle.receiver_model.specs.Receptions.{Reception};
ghost use Rattle.receiver_model.specs.Standing.{StandsFor, StandsForHeard};
ghost use Rattle.link_receiver.specs.Entered.{Outside, IsEntered, IsDrained};
ghost use Rattle.link_slices.specs.Calls.{PlaceCall, exchanges_of};

use receiver_model::{receivers_follow_datagrams, receivers_follow_the_end};

/// A call of `enter` that answers an outcome, for every list of datagrams that the receiver stood
/// for: the outcome is the list's, the receiver stands for the longer list and for the feeder that
/// took back the same slices, and what it wrote is the output of the longer list without that of
/// the shorter one.
pub fn entering_follows_the_list()
    ensures outcome { (outside : Outside) (old new : Reception) (d : List ℕ) (outcome : Outcome)
        (calls : List PlaceCall) → IsEntered outside old new d outcome calls
        → (size : ℕ) (datagrams : List (List ℕ)) → StandsForHeard old size datagrams false
        → outcome ≡ outcome_behind size datagrams d }
    ensures stands { (outside : Outside) (old new : Reception) (d : List ℕ) (outcome : Outcome)
        (calls : List PlaceCall) → IsEntered outside old new d outcome calls
        → (size : ℕ) (f : Feeder) → size ≤ 8 → StandsFor old size f → f.has_ended ≡ false
        → StandsFor new size (next_feeder size f (Enter d) (dones_in (exchanges_of calls))) }
    ensures written { (outside : Outside) (old new : Reception) (d : List ℕ) (outcome : Outcome)
        (calls : List PlaceCall) → IsEntered outside old new d outcome calls
        → (size : ℕ) (f : Feeder) → size ≤ 8 → StandsFor old size f → f.has_ended ≡ false
        → output_so_far size (f.heard ++ d ∷ [])
        ≡ output_so_far size f.heard ++ datagram_bytes old d (exchanges_of calls) }
{
    receivers_follow_datagrams();
}

/// The same of a call of `drain` that answers Ok: it writes the rest of the full output, and the
/// counts are the tally's.
pub fn draining_follows_the_list()
    ensures stands { (outside : Outside) (old new : Reception) (calls : List PlaceCall)
        → IsDrained outside old new calls
        → (size : ℕ) (f : Feeder) → size ≤ 8 → StandsFor old size f → f.has_ended ≡ false
        → StandsFor new size (next_feeder size f Finish (dones_in (exchanges_of calls))) }
    ensures written { (outside : Outside) (old new : Reception) (calls : List PlaceCall)
        → IsDrained outside old new calls
        → (size : ℕ) (f : Feeder) → size ≤ 8 → StandsFor old size f → f.has_ended ≡ false
        → full_output size f.heard
        ≡ output_so_far size f.heard ++ end_bytes old (exchanges_of calls) }
    ensures counts { (outside : Outside) (old new : Reception) (calls : List PlaceCall)
        → IsDrained outside old new calls
        → (size : ℕ) (f : Feeder) → size ≤ 8 → StandsFor old size f → f.has_ended ≡ false
        → new.counts ≡ tally_of size f.heard }
{
    receivers_follow_the_end();
}
