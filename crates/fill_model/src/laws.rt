ghost use Rattle.std.specs.Prelude.{◌≡◌, ◌≤◌, ◌++◌, ◌∷◌, ℕ, [], List, false};
ghost use Rattle.fill_model.specs.FilledSessions.{filled_output, filled_so_far, frame_written_last};
ghost use Rattle.fill_model.specs.ReleasedFrames.{datagram_filled, last_behind, end_filled};
ghost use Rattle.machine_model.specs.Feeders.{Feeder};
ghost use Rattle.receiver_model.specs.Exchanging.{Exchange, dones_in};
ghost use Rattle.receiver_model.specs.Receptions.{Reception};
ghost use Rattle.receiver_model.specs.Standing.{StandsFor, AreDecodings};

/// A receiver that fills gaps, and keeps the frame that it wrote last, writes with each datagram what the
/// filled frames so far grow by, and goes on keeping the last of them; at the end it writes the rest.
pub fn filled_frames_follow_datagrams()
    ensures last { (r : Reception) (size : ℕ) (f : Feeder) → size ≤ 8 → StandsFor r size f
        → f.has_ended ≡ false → (xs : List Exchange) → AreDecodings (dones_in xs) → (d : List ℕ)
        → last_behind r d xs (frame_written_last size f.heard)
        ≡ frame_written_last size (f.heard ++ d ∷ []) }
    ensures datagram { (r : Reception) (size : ℕ) (f : Feeder) → size ≤ 8 → StandsFor r size f
        → f.has_ended ≡ false → (xs : List Exchange) → AreDecodings (dones_in xs) → (d : List ℕ)
        → filled_so_far size (f.heard ++ d ∷ [])
        ≡ filled_so_far size f.heard ++ datagram_filled r d xs (frame_written_last size f.heard) }
    ensures at_end { (r : Reception) (size : ℕ) (f : Feeder) → size ≤ 8 → StandsFor r size f
        → f.has_ended ≡ false → (xs : List Exchange) → AreDecodings (dones_in xs)
        → filled_output size f.heard
        ≡ filled_so_far size f.heard ++ end_filled r xs (frame_written_last size f.heard) }
{}
