ghost use Rattle.std.specs.Prelude.{◌≡◌, ◌≤◌, ◌++◌, List, ℕ, length, Ok};
ghost use Rattle.pcap_in.specs.Pcap.{pcap_record, record_bytes};
ghost use Rattle.pcap_in.specs.declared.head.Order.{Order};

/// What a record is written as, with 8 bytes of time and the frame's own length in 4, is read back as the
/// bytes that it keeps, in either order, whatever follows, where these are at most 262,144.
pub fn written_record_is_read()
    ensures { (order : Order) (time original kept more : List ℕ)
        → length time ≡ 8 → length original ≡ 4 → length kept ≤ 262144
        → pcap_record order (record_bytes order time original kept ++ more) ≡ Ok (kept, more) }
{}
