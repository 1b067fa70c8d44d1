ghost use Rattle.std.specs.Prelude.{◌≡◌, ℕ, ◌≤◌, true, false, List, [], ◌∷◌, ◌++◌, Some, None};
ghost use Rattle.link_model.specs.Complete.{has_all_slices};
ghost use Rattle.machine_model.specs.Feeders.{Feeder, new_feeder, has_released, releasable, kept_job};
ghost use Rattle.machine_model.specs.Feeding.{hears_datagram, hears_end};
ghost use Rattle.link_model.specs.Judgement.{outcome_behind, tally_of};
ghost use Rattle.link_model.specs.Kept.{Own, own};
ghost use Rattle.machine_model.specs.Machine.{Enter, Finish};
ghost use Rattle.machine_model.specs.Next.{next_feeder, taken_back};
ghost use Rattle.link_model.specs.Output.{output_so_far, full_output, is_closed_in};
ghost use Rattle.machine_model.specs.Places.{Job};
ghost use Rattle.link_model.specs.Session.{Fragment, Part, sessions_of};
ghost use Rattle.link_model.specs.Windows.{Window, WindowPast, StandsForPast, window_enters};
ghost use Rattle.receiver_model.specs.Entering.{before_releases, datagram_jobs, takes_datagram};
ghost use Rattle.receiver_model.specs.Entering.{datagram_bytes, takes_end, end_bytes};
ghost use Rattle.receiver_model.specs.Exchanging.{Exchange, all_exchanged, dones_in};
ghost use Rattle.receiver_model.specs.Exchanging.{window_job, offered_jobs, is_job_among};
ghost use Rattle.receiver_model.specs.Judging.{judged, keeps_datagram, ends_input};
ghost use Rattle.receiver_model.specs.Offered.{AreAllOffered, HasJobs};
ghost use Rattle.receiver_model.specs.Receptions.{Reception, new_reception, kept_answer};
ghost use Rattle.receiver_model.specs.SlicesOut.{AreOutKept, ArePutsOf, is_job_out};
ghost use Rattle.receiver_model.specs.Standing.{StandsFor, StandsForHeard, AreDecodings};
ghost use Rattle.receiver_model.specs.Standing.{out_without, with_picture_counts};
ghost use Rattle.receiver_model.specs.Standing.{leaves_pictures, LeavesSession, frames_written};
ghost use Rattle.receiver_model.specs.WholePictures.{IsOwnPicture};
ghost use Rattle.vc_types.specs.SequenceHeader.{Sequence};

/// A new receiver stands for a feeder that heard nothing.
pub fn a_new_receiver_stands_for_nothing()
    ensures { (size : ℕ) → StandsFor (new_reception size) size new_feeder }
{}

/// A receiver judges a datagram as the list of those before it says, its counts of outcomes are the
/// tally's, and its frames those of the output so far. Behind it the receiver stands for the longer
/// list, and for the feeder that heard the datagram, took back the same decoded slices and released
/// what it may. It writes what is due: the output so far of the longer list without that of the
/// shorter one.
pub fn receivers_follow_datagrams()
    ensures outcome { (r : Reception) (size : ℕ) (datagrams : List (List ℕ)) (d : List ℕ)
        → StandsForHeard r size datagrams false
        → judged r d ≡ outcome_behind size datagrams d }
    ensures counts { (r : Reception) (size : ℕ) (datagrams : List (List ℕ))
        → StandsForHeard r size datagrams false
        → r.counts ≡ with_picture_counts (tally_of size datagrams) r.counts }
    ensures frames { (r : Reception) (size : ℕ) (datagrams : List (List ℕ))
        → StandsForHeard r size datagrams false
        → r.counts.frames ≡ frames_written size (sessions_of datagrams) }
    ensures stands { (r : Reception) (size : ℕ) (f : Feeder) → size ≤ 8 → StandsFor r size f
        → f.has_ended ≡ false → (exchanges : List Exchange) → AreDecodings (dones_in exchanges)
        → (d : List ℕ) → StandsFor (takes_datagram r d exchanges) size
        (next_feeder size f (Enter d) (dones_in exchanges)) }
    ensures written { (r : Reception) (size : ℕ) (f : Feeder) → size ≤ 8 → StandsFor r size f
        → f.has_ended ≡ false → (exchanges : List Exchange) → AreDecodings (dones_in exchanges)
        → (d : List ℕ) → output_so_far size (f.heard ++ d ∷ [])
        ≡ output_so_far size f.heard ++ datagram_bytes r d exchanges }
{}

/// A datagram with an outcome other than HeaderNew, End and those by which a picture keeps
/// something leaves the session that stands, and what its pictures keep: the books are the same. It
/// may open a picture, which keeps nothing yet, and close others, of which those that were released
/// are forgotten.
pub fn unkept_datagrams_change_nothing()
    ensures { (r : Reception) (size : ℕ) (datagrams : List (List ℕ)) (d : List ℕ)
        → StandsForHeard r size datagrams false → leaves_pictures (judged r d) ≡ true
        → LeavesSession r.standing (keeps_datagram r d).standing }
{}

/// What is kept of a picture all of whose slices are there is a picture of its sequence: the coded
/// parameters, and after them the slices that are kept, as many whole ones as it has, are its bytes.
/// So the law on slices that decode apart speaks of the pictures that are written.
pub fn complete_pictures_are_their_slices()
    ensures { (s : Sequence) (parts : List Part) (kept : Own) → own s parts ≡ Some kept
        → has_all_slices kept ≡ true → IsOwnPicture s parts kept }
{}

/// The jobs that a fragment offers are those of the slices that it brings: their pictures keep them
/// after it, and didn't before.
pub fn new_slices_are_offered()
    ensures every { (w : Window) (p : WindowPast) → StandsForPast w p → p.is_ended ≡ false
        → (f : Fragment) (n i : ℕ) (job : Job) → window_job w n i ≡ None
        → window_job (window_enters w f) n i ≡ Some job
        → is_job_among (offered_jobs w (window_enters w f) f) job ≡ true }
    ensures only { (old new : Window) (f : Fragment) (job : Job)
        → is_job_among (offered_jobs old new f) job ≡ true
        → (window_job new job.number job.index ≡ Some job)
        × (window_job old job.number job.index ≡ None) }
{}

/// A datagram offers the job of each slice that it newly brings: one that a picture keeps with the
/// datagram, and didn't keep before. One that opens a session brings none.
pub fn each_new_slice_is_offered()
    ensures { (r : Reception) (size : ℕ) (datagrams : List (List ℕ)) (d : List ℕ)
        → StandsForHeard r size datagrams false → (n i : ℕ) (job : Job)
        → kept_job size (sessions_of datagrams) n i ≡ None
        → kept_job size (sessions_of (datagrams ++ d ∷ [])) n i ≡ Some job
        → is_job_among (datagram_jobs r d) job ≡ true }
{}

/// Each slice that a picture keeps was offered: no picture keeps one where nothing was heard, and a
/// datagram whose jobs are offered leaves none that wasn't, if there was none before.
pub fn every_kept_slice_was_offered()
    ensures none { (size : ℕ) (offered : List Job) → AreAllOffered size (sessions_of []) offered }
    ensures datagram { (r : Reception) (size : ℕ) (datagrams : List (List ℕ)) (d : List ℕ)
        → size ≤ 8 → StandsForHeard r size datagrams false → (offered more : List Job)
        → AreAllOffered size (sessions_of datagrams) offered → HasJobs more (datagram_jobs r d)
        → AreAllOffered size (sessions_of (datagrams ++ d ∷ [])) (offered ++ more) }
{}

/// A datagram offers nothing else: each of its jobs is that of a slice which a picture of the
/// datagrams keeps with it, and didn't keep before. The picture is still open after the datagram,
/// it wasn't released, and the slice has no answer.
pub fn only_new_slices_are_offered()
    ensures kept { (r : Reception) (size : ℕ) (datagrams : List (List ℕ)) (d : List ℕ)
        → StandsForHeard r size datagrams false → size ≤ 8
        → (job : Job) → is_job_among (datagram_jobs r d) job ≡ true
        → (kept_job size (sessions_of (datagrams ++ d ∷ [])) job.number job.index ≡ Some job)
        × (kept_job size (sessions_of datagrams) job.number job.index ≡ None) }
    ensures unclosed { (r : Reception) (size : ℕ) (datagrams : List (List ℕ)) (d : List ℕ)
        → StandsForHeard r size datagrams false → 1 ≤ size → size ≤ 8
        → (job : Job) → is_job_among (datagram_jobs r d) job ≡ true
        → is_closed_in size (sessions_of (datagrams ++ d ∷ [])) job.number ≡ false }
    ensures unreleased { (r : Reception) (size : ℕ) (f : Feeder) → size ≤ 8 → StandsFor r size f
        → f.has_ended ≡ false → (d : List ℕ)
        → (job : Job) → is_job_among (datagram_jobs r d) job ≡ true
        → has_released f job.number ≡ false }
    ensures unanswered { (r : Reception) (size : ℕ) (f : Feeder) → size ≤ 8 → StandsFor r size f
        → f.has_ended ≡ false → (d : List ℕ)
        → (job : Job) → is_job_among (datagram_jobs r d) job ≡ true
        → kept_answer r.answers job.number job.index ≡ None }
{}

/// The slice of a job that a datagram offers isn't out, where each that is out is one which a
/// picture keeps. So it is for a new receiver, and so it stays as offered jobs are put into places
/// and come back, as pictures are released, and at the end, where nothing is offered.
pub fn offered_slices_are_not_out()
    ensures not_out { (r : Reception) (size : ℕ) (datagrams : List (List ℕ)) (d : List ℕ)
        → size ≤ 8 → StandsForHeard r size datagrams false
        → AreOutKept size (sessions_of datagrams) r.out
        → (job : Job) → is_job_among (datagram_jobs r d) job ≡ true
        → is_job_out r.out job ≡ false }
    ensures none { (size : ℕ) → AreOutKept size (sessions_of []) (new_reception size).out }
    ensures datagram { (r : Reception) (size : ℕ) (datagrams : List (List ℕ)) (d : List ℕ)
        → size ≤ 8 → StandsForHeard r size datagrams false
        → AreOutKept size (sessions_of datagrams) r.out
        → (exchanges : List Exchange) → ArePutsOf (datagram_jobs r d) exchanges
        → AreOutKept size (sessions_of (datagrams ++ d ∷ [])) (takes_datagram r d exchanges).out }
    ensures at_end { (r : Reception) (size : ℕ) (datagrams : List (List ℕ))
        → AreOutKept size (sessions_of datagrams) r.out
        → (exchanges : List Exchange) → ArePutsOf [] exchanges
        → AreOutKept size (sessions_of datagrams) (takes_end r exchanges).out }
{}

/// The slices of the pictures that a call releases aren't out any more after it, and all others
/// are that were out before its releases.
pub fn released_slices_are_not_out()
    ensures datagram { (r : Reception) (size : ℕ) (f : Feeder) → size ≤ 8 → StandsFor r size f
        → f.has_ended ≡ false → (exchanges : List Exchange) → AreDecodings (dones_in exchanges)
        → (d : List ℕ) → (takes_datagram r d exchanges).out ≡ out_without
        (releasable size (taken_back size (hears_datagram f d) (dones_in exchanges)))
        (before_releases r d exchanges).out }
    ensures at_end { (r : Reception) (size : ℕ) (f : Feeder) → size ≤ 8 → StandsFor r size f
        → f.has_ended ≡ false → (exchanges : List Exchange) → AreDecodings (dones_in exchanges)
        → (takes_end r exchanges).out ≡ out_without
        (releasable size (taken_back size (hears_end f) (dones_in exchanges)))
        (all_exchanged (ends_input r) exchanges).out }
{}

/// At the end of the input a receiver stands for the feeder to which the end came. It writes the
/// rest of the full output, and its counts are the tally.
pub fn receivers_follow_the_end()
    ensures stands { (r : Reception) (size : ℕ) (f : Feeder) → size ≤ 8 → StandsFor r size f
        → f.has_ended ≡ false → (exchanges : List Exchange) → AreDecodings (dones_in exchanges)
        → StandsFor (takes_end r exchanges) size
        (next_feeder size f Finish (dones_in exchanges)) }
    ensures written { (r : Reception) (size : ℕ) (f : Feeder) → size ≤ 8 → StandsFor r size f
        → f.has_ended ≡ false → (exchanges : List Exchange) → AreDecodings (dones_in exchanges)
        → full_output size f.heard
        ≡ output_so_far size f.heard ++ end_bytes r exchanges }
    ensures counts { (r : Reception) (size : ℕ) (f : Feeder) → size ≤ 8 → StandsFor r size f
        → f.has_ended ≡ false → (exchanges : List Exchange) → AreDecodings (dones_in exchanges)
        → (takes_end r exchanges).counts ≡ tally_of size f.heard }
{}
