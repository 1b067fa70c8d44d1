ghost use Rattle.std.specs.Prelude.{◌≡◌, ◌≤◌, ◌⊎◌, ◌↔◌, ℕ, List, Some, None, true};
ghost use Rattle.machine_model.specs.Feeders.{Feeder, is_among, next_to_release, releasable};
ghost use Rattle.machine_model.specs.Feeders.{slice_job};
ghost use Rattle.machine_model.specs.Feeding.{takes_answer};
ghost use Rattle.machine_model.specs.Interleavings.{machine_after, IsRun, due, inputs, AreOwnAnswers};
ghost use Rattle.machine_model.specs.Machine.{Machine, Event, Put, Claim, Complete, Take, Withdraw};
ghost use Rattle.machine_model.specs.Machine.{Leave, Redo, Release, IsLegal, happens};
ghost use Rattle.machine_model.specs.Machine.{is_legal_on_places, is_legal_for_feeder};
ghost use Rattle.machine_model.specs.Next.{AreLegalForFeeder, after_taking, all_releasing};
ghost use Rattle.machine_model.specs.Next.{next_feeder};
ghost use Rattle.link_model.specs.Output.{IsPrefixOf};
ghost use Rattle.machine_model.specs.Places.{Job, Answered, Decoded, AreApart, HaveOwnAnswers};
ghost use Rattle.machine_model.specs.Places.{place_at, puts_job, claims_job, completes_job};
ghost use Rattle.machine_model.specs.Places.{frees_place};
ghost use Rattle.link_model.specs.Session.{sessions_of};

/// Whatever claims, completions, withdrawals and releases come between the datagrams, what is
/// written begins what is due of the datagrams that were heard, and is all of it where no picture
/// may be released. So the same datagrams and the same end of the input, in the same order, end in
/// the same bytes.
#[tactic(auto, using(crate::proofs::MachineRuns::laws))]
pub fn every_interleaving_writes_what_is_due()
    ensures begins { (window places : ℕ) (events : List Event) → window ≤ 8
        → IsRun window places events
        → IsPrefixOf (machine_after window places events).feeder.written
        (due window (machine_after window places events).feeder) }
    ensures all { (window places : ℕ) (events : List Event) → window ≤ 8
        → IsRun window places events
        → next_to_release window (machine_after window places events).feeder ≡ None
        → (machine_after window places events).feeder.written
        ≡ due window (machine_after window places events).feeder }
    ensures same { (window places others : ℕ) (events different : List Event) → window ≤ 8
        → IsRun window places events → IsRun window others different
        → inputs events ≡ inputs different
        → next_to_release window (machine_after window places events).feeder ≡ None
        → next_to_release window (machine_after window others different).feeder ≡ None
        → (machine_after window places events).feeder.written
        ≡ (machine_after window others different).feeder.written }
{}

/// In every interleaving each answer that the feeder has is the decoding of the slice that its
/// picture keeps. No slice stands in two places, and what is done in a place is its own job's
/// decoding.
#[tactic(auto, using(crate::proofs::MachineRuns::laws))]
pub fn every_answer_is_its_own_slice()
    ensures feeder { (window places : ℕ) (events : List Event) → window ≤ 8
        → IsRun window places events
        → AreOwnAnswers window (sessions_of (machine_after window places events).feeder.heard)
        (machine_after window places events).feeder.decoded }
    ensures places { (window places : ℕ) (events : List Event) → window ≤ 8
        → IsRun window places events
        → HaveOwnAnswers (machine_after window places events).places }
    ensures apart { (window places : ℕ) (events : List Event) → window ≤ 8
        → IsRun window places events → AreApart (machine_after window places events).places }
{}

/// Where a picture may be released, the least one can be, or the feeder can decode one of its
/// slices: no worker is needed.
#[tactic(auto, using(crate::proofs::MachineRuns::laws))]
pub fn the_feeder_is_never_stuck()
    ensures { (window : ℕ) (m : Machine) (n : ℕ) → next_to_release window m.feeder ≡ Some n
        → IsLegal window m (Release n) ⊎ ((i : ℕ) × IsLegal window m (Redo n i)) }
{}

/// The next picture that is released is the least that may be.
#[tactic(auto, using(crate::proofs::MachineRuns::laws))]
pub fn pictures_are_released_least_first()
    ensures { (window : ℕ) (f : Feeder) (n m : ℕ) → window ≤ 8 → next_to_release window f ≡ Some n
        → is_among (releasable window f) m ≡ true → n ≤ m }
{}

/// An event is legal where it is so on the places, and for the feeder.
#[tactic(auto, using(crate::proofs::MachineRuns::laws))]
pub fn events_are_legal_in_two_halves()
    ensures { (window : ℕ) (m : Machine) (e : Event) → IsLegal window m e
        ↔ ((is_legal_on_places m.places e ≡ true)
        × (is_legal_for_feeder window m.feeder e ≡ true)) }
{}

/// On the feeder's own way, a datagram or the end, then what it takes back, and then what it
/// decodes and releases, each of the latter events is legal for it where it stands, and in the end
/// no picture may be released.
#[tactic(auto, using(crate::proofs::FeederWay::laws))]
pub fn the_feeder_goes_a_legal_way()
    ensures legal { (window : ℕ) (f : Feeder) (e : Event) (dones : List Answered) → window ≤ 8
        → AreLegalForFeeder window (after_taking window f e dones)
        (all_releasing window (after_taking window f e dones)) }
    ensures ends { (window : ℕ) (f : Feeder) (e : Event) (dones : List Answered) → window ≤ 8
        → next_to_release window (next_feeder window f e dones) ≡ None }
{}

/// What each event on the places does there, by the words that the calls of a ring of places are
/// said in; and a take brings the feeder what was done.
#[tactic(auto, using(crate::proofs::PlaceSteps::laws))]
pub fn events_change_places_step_by_step()
    ensures put { (window : ℕ) (m : Machine) (place n i : ℕ) (job : Job)
        → slice_job window m.feeder n i ≡ Some job
        → (happens window m (Put place n i)).places ≡ puts_job m.places place job }
    ensures claim { (window : ℕ) (m : Machine) (worker place : ℕ)
        → (happens window m (Claim worker place)).places ≡ claims_job m.places worker place }
    ensures complete { (window : ℕ) (m : Machine) (place serial : ℕ)
        → (happens window m (Complete place serial)).places
        ≡ completes_job m.places place serial }
    ensures take { (window : ℕ) (m : Machine) (place : ℕ)
        → (happens window m (Take place)).places ≡ frees_place m.places place }
    ensures withdraw { (window : ℕ) (m : Machine) (place : ℕ)
        → (happens window m (Withdraw place)).places ≡ frees_place m.places place }
    ensures leave { (window : ℕ) (m : Machine) (place : ℕ)
        → (happens window m (Leave place)).places ≡ frees_place m.places place }
    ensures taken { (window : ℕ) (m : Machine) (place : ℕ) (done : Answered)
        → (place_at m.places place).content ≡ Decoded done
        → (happens window m (Take place)).feeder ≡ takes_answer window m.feeder done }
{}
