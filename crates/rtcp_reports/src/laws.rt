ghost use Rattle.std.specs.Prelude.{◌≡◌, ℕ, ◌+◌, ◌-◌, ◌%◌, ◌^◌, ◌<◌, List, ◌∷◌, length, Some, None, Ok};
ghost use Rattle.rtcp_reports.specs.Rtcp.{receiver_compound, sender_compound, compound, block_of_report};
ghost use Rattle.rtcp_reports.specs.Rtcp.{BlockFits, SenderFits, IsName};
ghost use Rattle.rtcp_reports.specs.Tracks.{Arrive, tracked_from, highest_of, block_of, loss};
ghost use Rattle.rtcp_reports.specs.declared.block.Block.{Block};
ghost use Rattle.rtcp_reports.specs.declared.block.SenderInfo.{SenderInfo};

/// A report counts a source's packets across the wrapping of their 16-bit numbers. If the first two come in
/// sequence, and each later one is less than 100 below or 3,000 above the highest before it, then the
/// report's highest number is that of the packets, counted from the second packet's own 16 bits, and its loss
/// is the packets expected from the second one on minus those received, where a packet that comes twice
/// counts twice.
pub fn tracks_count_what_came()
    ensures probation { (first : ℕ) (numbers : List ℕ) → Arrive (first + 1) numbers
        → (tracked_from first ((first + 1) ∷ numbers)).probation ≡ 0 }
    ensures highest { (ssrc first : ℕ) (numbers : List ℕ) → Arrive (first + 1) numbers
        → (block_of ssrc (tracked_from first ((first + 1) ∷ numbers))).highest
        ≡ (highest_of (first + 1) numbers - (first + 1) + (first + 1) % 65536) % 2 ^ 32 }
    ensures lost { (ssrc first : ℕ) (numbers : List ℕ) → Arrive (first + 1) numbers
        → (block_of ssrc (tracked_from first ((first + 1) ∷ numbers))).lost
        ≡ loss (highest_of (first + 1) numbers - (first + 1) + 1) (1 + length numbers) }
{}

/// What is written is read back: who reports, what a sender says of itself, and a block.
pub fn what_is_written_is_read()
    ensures none { (ssrc : ℕ) (name : List ℕ) → ssrc < 2 ^ 32 → IsName name
        → compound (receiver_compound ssrc None name)
        ≡ Ok (record { sender = None; ssrc = ssrc; blocks = 0 }) }
    ensures one { (ssrc : ℕ) (block : Block) (name : List ℕ) → ssrc < 2 ^ 32 → IsName name
        → compound (receiver_compound ssrc (Some block) name)
        ≡ Ok (record { sender = None; ssrc = ssrc; blocks = 1 }) }
    ensures block { (ssrc : ℕ) (block : Block) (name : List ℕ) → BlockFits block
        → block_of_report (receiver_compound ssrc (Some block) name)
        (record { sender = None; ssrc = ssrc; blocks = 1 }) 0 ≡ block }
    ensures sender { (s : SenderInfo) (name : List ℕ) → SenderFits s → IsName name
        → compound (sender_compound s name)
        ≡ Ok (record { sender = Some s; ssrc = s.ssrc; blocks = 0 }) }
{}
