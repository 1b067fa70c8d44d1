ghost use Rattle.std.specs.Prelude.{◌≡◌, ◌≤◌, ◌++◌, ◌∷◌, ℕ, [], List, false};
ghost use Rattle.machine_model.specs.Feeders.{Feeder};
ghost use Rattle.receiver_model.specs.Entering.{takes_datagram};
ghost use Rattle.receiver_model.specs.Exchanging.{Exchange, dones_in};
ghost use Rattle.receiver_model.specs.Receptions.{Reception, new_reception};
ghost use Rattle.receiver_model.specs.Standing.{StandsFor, AreDecodings};
ghost use Rattle.stream_model.specs.Streams.{stream_so_far, stream_of};
ghost use Rattle.link_pictures.specs.Writing.{WrittenStream, nothing_written};
ghost use Rattle.link_pictures.specs.Receiving.{stream_takes, datagram_units, end_units};
ghost use Rattle.link_pictures.specs.Standing.{StreamsFor};

/// A receiver of units that heard nothing wrote nothing. With each datagram it goes on standing for
/// what was heard, and writes what the stream so far grows by; at the end it writes the rest of the
/// stream.
pub fn written_streams_follow_datagrams()
    ensures nothing { (size : ℕ) → StreamsFor (new_reception size) nothing_written size [] }
    ensures stands { (r : Reception) (size : ℕ) (f : Feeder) (w : WrittenStream) → size ≤ 8
        → StandsFor r size f → f.has_ended ≡ false → StreamsFor r w size f.heard
        → (xs : List Exchange) → AreDecodings (dones_in xs) → (d : List ℕ)
        → StreamsFor (takes_datagram r d xs) (stream_takes r d xs w) size (f.heard ++ d ∷ []) }
    ensures datagram { (r : Reception) (size : ℕ) (f : Feeder) (w : WrittenStream) → size ≤ 8
        → StandsFor r size f → f.has_ended ≡ false → StreamsFor r w size f.heard
        → (xs : List Exchange) → AreDecodings (dones_in xs) → (d : List ℕ)
        → stream_so_far size (f.heard ++ d ∷ [])
        ≡ stream_so_far size f.heard ++ datagram_units r d xs w }
    ensures at_end { (r : Reception) (size : ℕ) (f : Feeder) (w : WrittenStream) → size ≤ 8
        → StandsFor r size f → f.has_ended ≡ false → StreamsFor r w size f.heard
        → (xs : List Exchange) → AreDecodings (dones_in xs)
        → stream_of size f.heard ≡ stream_so_far size f.heard ++ end_units r xs w }
{}
