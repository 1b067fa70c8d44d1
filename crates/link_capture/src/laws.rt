ghost use Rattle.std.specs.Prelude.{◌≡◌, ℕ, ◌<◌, ◌^◌, List, [], ◌++◌, length, None, All};
ghost use Rattle.std.specs.List.{flat_map};
ghost use Rattle.link_capture.specs.Capture.{entry, first_entry, entries_of, BeginsEntry};

/// Entries that are written one after another are read back as the same datagrams, and bytes are the entries
/// that are read from them and a rest, which begins with no whole entry and is the beginning of one.
pub fn entries_are_read_back()
    ensures written { (datagrams : List (List ℕ))
        → All (λ datagram. length datagram < 2 ^ 16) datagrams
        → entries_of (flat_map entry datagrams) ≡ (datagrams, []) }
    ensures bytes { (bytes : List ℕ) → All (λ byte. byte < 256) bytes
        → flat_map entry (entries_of bytes).0 ++ (entries_of bytes).1 ≡ bytes }
    ensures rest { (bytes : List ℕ) → first_entry (entries_of bytes).1 ≡ None }
    ensures cut { (bytes : List ℕ) → All (λ byte. byte < 256) bytes
        → BeginsEntry (entries_of bytes).1 }
{}
