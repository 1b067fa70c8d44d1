ghost use Rattle.std.specs.Prelude.{◌≡◌, ◌+◌, [], ◌∷◌, ◌++◌, List, length};
ghost use Rattle.stream_model.specs.Packing.{PackedPicture, packed_datagrams, packed_picture};
ghost use Rattle.stream_model.specs.Packing.{packed_timestamp, timestamp_behind};
ghost use Rattle.vc_types.specs.SenderSettings.{Packing};

/// A picture more is packed after the others, with the next sequence number and a timestamp that counts them.
#[tactic(auto, using(crate::proofs::PackedMore::packed_more, crate::proofs::PackedMore::timestamp_more))]
pub fn pictures_are_packed_one_by_one()
    ensures datagrams { (s : Packing) (pictures : List PackedPicture) (p : PackedPicture)
        → packed_datagrams s (pictures ++ p ∷ [])
        ≡ packed_datagrams s pictures ++ packed_picture s (length pictures)
        (s.seq + length (packed_datagrams s pictures)) p }
    ensures timestamp { (s : Packing) (pictures : List PackedPicture) (p : PackedPicture)
        → timestamp_behind s 0 0 (pictures ++ p ∷ [])
        ≡ packed_timestamp s (length pictures) p.number }
{}
