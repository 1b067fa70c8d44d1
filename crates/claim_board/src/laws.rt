ghost use Rattle.std.specs.Prelude.{◌≡◌, ℕ, ◌*◌, ◌∷◌, ◌<◌, ◌≤◌, List, [], length, slice_index, Some};
ghost use mathlib.Core.Option.{some};
ghost use lib.ListN.{get_elem?};
ghost use Rattle.claim_board.specs.declared.cargo.Cargo.TheVariants.{Finished};
ghost use Rattle.claim_board.specs.declared.view.Deed.{Deed};
ghost use Rattle.claim_board.specs.declared.view.Deed.TheVariants.{WasRead, WasTaken};
ghost use Rattle.claim_board.specs.declared.view.Entry.{Entry};
ghost use Rattle.claim_board.specs.History.{after_deed, entry_of, places_after, word_of, IsHistory, MayDo};
ghost use Rattle.claim_board.specs.Laws.{claims_in, AreItsEvents, IsOfFeeder, IsStepOf};
ghost use Rattle.claim_board.specs.RunPlaces.{RunPlace, ShowRuns, place_at, run_places};
ghost use Rattle.claim_board.specs.Rule.{BoardRule, BoardState};
ghost use Rattle.claim_board.specs.Views.{SeatView};
ghost use Rattle.machine_model.specs.Machine.{Machine, new_machine};
ghost use Rattle.link_slices.specs.Jobs.{answered_run};
ghost use Rattle.vc_slice.specs.declared.run.RunDone.{RunDone};

/// The rule leaves a step no choice: after it the history is the one before it, and the step as the
/// last one. Its deed may stand there, and the words after it are what the deed leads to; a word
/// that it read was there, and an answer that it took lay in the slot.
pub fn each_step_is_the_last()
    ensures last { (s t : BoardState) (old : BoardRule s) (new : BoardRule t) (seat : ℕ)
        (v : SeatView) (deed : Deed) → IsStepOf s t seat v deed
        → new.history ≡ entry_of v.number deed ∷ old.history }
    ensures may { (s t : BoardState) (old : BoardRule s) (new : BoardRule t) (seat : ℕ)
        (v : SeatView) (deed : Deed) → IsStepOf s t seat v deed
        → MayDo (places_after old.places old.history) v.number deed }
    ensures leads { (s t : BoardState) (old : BoardRule s) (new : BoardRule t) (seat : ℕ)
        (v : SeatView) (deed : Deed) (place : ℕ) → IsStepOf s t seat v deed
        → place < length t.words → slice_index t.words place
        ≡ word_of (place_at (after_deed (places_after old.places old.history) v.number deed) place) }
    ensures read { (s t : BoardState) (old : BoardRule s) (new : BoardRule t) (seat : ℕ)
        (v : SeatView) (place word : ℕ) → IsStepOf s t seat v (WasRead place word)
        → place < length s.words → word ≡ slice_index s.words place }
    ensures taken { (s t : BoardState) (old : BoardRule s) (new : BoardRule t) (seat : ℕ)
        (v : SeatView) (place serial : ℕ) (done : RunDone)
        → IsStepOf s t seat v (WasTaken place serial done) → place < length s.words
        → (own : RunDone) × (answered_run own ≡ answered_run done)
        × (get_elem? s.homes place ≡ some (some (Some (Finished serial own)))) }
{}

/// In a history each round of a place has one claim at most.
pub fn each_round_has_one_claim()
    ensures { (places place serial : ℕ) (history : List Entry) → IsHistory places history
        → claims_in place serial history ≤ 1 }
{}

/// Before the first step the places of a new machine, of which each place has as many as a run may have
/// slices, show those of the board.
pub fn a_new_machine_shows_a_new_board()
    ensures { (places : ℕ)
        → ShowRuns (new_machine (run_places * places)).places (places_after places []) }
{}

/// A step is an event of its name of the machine for each slice of its run, one after another: each is legal
/// on the machine's places, and what they lead to shows what the step leads to.
pub fn each_deed_is_its_events()
    ensures { (window : ℕ) (m : Machine) (runs : List RunPlace) (seat : ℕ) (deed : Deed)
        → ShowRuns m.places runs → MayDo runs seat deed → IsOfFeeder window m deed
        → AreItsEvents window m runs seat deed }
{}
