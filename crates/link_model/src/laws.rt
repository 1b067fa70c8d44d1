ghost use Rattle.std.specs.Prelude.{◌≡◌, ℕ, ◌+◌, ◌%◌, ◌^◌, ◌-◌, ◌<◌, ◌≤◌, true, false, List, []};
ghost use Rattle.std.specs.Prelude.{◌∷◌, ◌++◌, fold, filter_map, is_some, Some, None, Ok, length};
ghost use Rattle.std.specs.List.{flat_map, list_any};
ghost use Rattle.std.specs.Option.{option_and_then};
ghost use Rattle.link_model.specs.Books.{Book, book_of, book_takes, book_outcome, book_slice, book_whole};
ghost use Rattle.link_model.specs.Complete.{whole_picture};
ghost use Rattle.link_model.specs.Judgement.{part_outcome, keeps, fragment_outcome, outcome_behind};
ghost use Rattle.link_model.specs.Judgement.{outcomes_in, with_outcome, outcome_counts};
ghost use Rattle.link_model.specs.Kept.{Own, own, own_slice};
ghost use Rattle.link_model.specs.Numbers.{Numbered, base_above, is_opened, greatest, nearest};
ghost use Rattle.link_model.specs.Numbers.{picture_number, is_closed, is_late, enters, entered};
ghost use Rattle.link_model.specs.Numbers.{parts_of, opened_numbers};
ghost use Rattle.link_model.specs.Output.{is_let_go, let_go_numbers, frame_bytes_at, frames_so_far};
ghost use Rattle.link_model.specs.Output.{all_frames, output_so_far, full_output, greatest_of};
ghost use Rattle.link_model.specs.Output.{entered_behind, is_opened_in, is_closed_behind};
ghost use Rattle.link_model.specs.Output.{closing_place, all_output, last_so_far, IsPrefixOf};
ghost use Rattle.link_model.specs.Packets.{RtpPacket, RtpFits, rtp_packet, rtp_header};
ghost use Rattle.link_model.specs.Packets.{PayloadValue, IsWritable, payload, payload_bytes};
ghost use Rattle.link_model.specs.Packets.{read_back};
ghost use Rattle.link_model.specs.Session.{Part, Fragment, Session, HeardSession, just_opened};
ghost use Rattle.link_model.specs.Session.{is_other, opens_other, opens_behind, opens_next};
ghost use Rattle.link_model.specs.Session.{with_datagram, hears, sessions_of, begins, ends};
ghost use Rattle.link_model.specs.Session.{fragment_in};
ghost use Rattle.link_model.specs.declared.outcome.Outcome.TheVariants.{HeaderNew, End};
ghost use Rattle.vc_types.specs.SequenceHeader.{Sequence};

/// What a picture keeps stays as parts come: its parameters, each slice, and, once it is complete,
/// its whole bytes.
#[tactic(auto, using(crate::proofs::Keeping::laws))]
pub fn what_is_kept_stays()
    ensures kept { (s : Sequence) (parts more : List Part) (kept : Own) → own s parts ≡ Some kept
        → (later : Own) × (own s (parts ++ more) ≡ Some later) × (later.plan ≡ kept.plan)
        × ((i : ℕ) (bytes : List ℕ) → own_slice kept i ≡ Some bytes → own_slice later i
        ≡ Some bytes) }
    ensures whole { (s : Sequence) (parts more : List Part) (bytes : List ℕ) → whole_picture s parts
        ≡ Some bytes → whole_picture s (parts ++ more) ≡ Some bytes }
{}

/// The greatest number never falls, a late fragment changes nothing, and a closed picture gets no more parts.
#[tactic(auto, using(crate::proofs::Numbering::laws))]
pub fn closed_pictures_stay()
    ensures greatest { (base window : ℕ) (fragments more : List Fragment)
        → greatest (entered base window fragments) ≤ greatest (entered base window (fragments
        ++ more)) }
    ensures late { (base window : ℕ) (es : List Numbered) (f : Fragment)
        → is_late window es (picture_number base es f.number) ≡ true → enters base window es f
        ≡ es }
    ensures closed { (base window n : ℕ) (fragments more : List Fragment)
        → is_closed window (entered base window fragments) n ≡ true
        → parts_of n (entered base window (fragments ++ more))
        ≡ parts_of n (entered base window fragments) }
{}

/// A picture that is let go stays let go, as it is, and what is let go later has a greater number.
#[tactic(auto, using(crate::proofs::Releasing::laws))]
pub fn let_go_pictures_stay()
    ensures stays { (base window : ℕ) (s : Sequence) (fragments more : List Fragment) (n : ℕ)
        → is_let_go window s (entered base window fragments) n ≡ true
        → is_let_go window s (entered base window (fragments ++ more)) n ≡ true }
    ensures same { (base window : ℕ) (s : Sequence) (fragments more : List Fragment) (n : ℕ)
        → is_let_go window s (entered base window fragments) n ≡ true
        → whole_picture s (parts_of n (entered base window (fragments ++ more)))
        ≡ whole_picture s (parts_of n (entered base window fragments)) }
    ensures rising { (window : ℕ) (s : Sequence) (es : List Numbered) (n m : ℕ)
        → is_let_go window s es n ≡ true → is_let_go window s es m ≡ false → n < m }
{}

/// What is written of a list of datagrams begins what is written of any longer one, and all that is
/// written in the end.
#[tactic(auto, using(crate::proofs::Growing::laws))]
pub fn output_only_grows()
    ensures so_far { (window : ℕ) (datagrams more : List (List ℕ))
        → IsPrefixOf (output_so_far window datagrams) (output_so_far window (datagrams ++ more)) }
    ensures full { (window : ℕ) (datagrams more : List (List ℕ))
        → IsPrefixOf (output_so_far window datagrams) (full_output window (datagrams ++ more)) }
{}

/// Each picture is written as it is let go, in rising order, and those that are left when the input
/// has ended.
#[tactic(auto, using(crate::proofs::Leaving::laws))]
pub fn pictures_leave_in_order()
    ensures so_far { (base window : ℕ) (s : Sequence) (fragments more : List Fragment)
        → (rest : List ℕ) × (let_go_numbers window s (entered base window (fragments ++ more))
        ≡ let_go_numbers window s (entered base window fragments) ++ rest)
        × (frames_so_far window s (entered base window (fragments ++ more))
        ≡ frames_so_far window s (entered base window fragments)
        ++ flat_map (frame_bytes_at s (entered base window (fragments ++ more))) rest) }
    ensures last { (window : ℕ) (s : Sequence) (es : List Numbered) → (rest : List ℕ)
        × (opened_numbers es ≡ let_go_numbers window s es ++ rest) × (all_frames s es
        ≡ frames_so_far window s es ++ flat_map (frame_bytes_at s es) rest) }
{}

/// Adding a part to the book for a list of parts gives the book for the longer list, and returns the outcome
/// of that part. The book has the slices kept so far and, once the picture is complete, all of its bytes.
#[tactic(auto, using(crate::proofs::Bookkeeping::laws))]
pub fn books_stand_for_parts()
    ensures more { (s : Sequence) (parts : List Part) (part : Part)
        → book_takes (book_of s parts) part ≡ book_of s (parts ++ part ∷ []) }
    ensures outcome { (s : Sequence) (parts : List Part) (part : Part)
        → book_outcome (book_of s parts) part ≡ part_outcome s parts part }
    ensures slice { (s : Sequence) (parts : List Part) (i : ℕ)
        → book_slice (book_of s parts) i
        ≡ option_and_then (λ kept. own_slice kept i) (own s parts) }
    ensures whole { (s : Sequence) (parts : List Part)
        → book_whole (book_of s parts) ≡ whole_picture s parts }
{}

/// A part that isn't kept leaves the book as it was.
#[tactic(auto, using(crate::proofs::Unchanged::laws))]
pub fn what_is_not_kept_changes_nothing()
    ensures { (book : Book) (part : Part) → keeps (book_outcome book part) ≡ false
        → book_takes book part ≡ book }
{}

/// A picture isn't closed after any place before its closing place, and after that one it is.
#[tactic(auto, using(crate::proofs::Closing::laws))]
pub fn pictures_close_at_their_place()
    ensures before { (window : ℕ) (datagrams : List (List ℕ)) (n k : ℕ)
        → k < closing_place window datagrams n → is_closed_behind window datagrams n k ≡ false }
    ensures at { (window : ℕ) (datagrams : List (List ℕ)) (n : ℕ)
        → closing_place window datagrams n < length datagrams
        → is_closed_behind window datagrams n (closing_place window datagrams n) ≡ true }
{}

/// A picture's number has the 32 bits that were sent, is at most half of their range away from the
/// greatest one, and fits 64 bits.
#[tactic(auto, using(crate::proofs::Wrapping::laws))]
pub fn numbers_wrap()
    ensures bits { (number bits : ℕ) → 2 ^ 32 ≤ number → bits < 2 ^ 32
        → nearest number bits % 2 ^ 32 ≡ bits }
    ensures above { (number bits : ℕ) → 2 ^ 32 ≤ number → bits < 2 ^ 32
        → nearest number bits < number + 2 ^ 31 }
    ensures below { (number bits : ℕ) → 2 ^ 32 ≤ number → bits < 2 ^ 32 → number
        ≤ nearest number bits + 2 ^ 31 }
    ensures fits { (base window : ℕ) (fragments : List Fragment)
        → greatest (entered base window fragments) < 2 ^ 64 - 16 }
{}

/// One datagram more has one outcome more, which is counted.
#[tactic(auto, using(crate::proofs::Counting::laws))]
pub fn outcomes_are_counted()
    ensures outcomes { (window : ℕ) (datagrams : List (List ℕ)) (datagram : List ℕ)
        → outcomes_in window (datagrams ++ datagram ∷ []) ≡ outcomes_in window datagrams
        ++ outcome_behind window datagrams datagram ∷ [] }
    ensures counts { (window : ℕ) (datagrams : List (List ℕ)) (datagram : List ℕ)
        → outcome_counts (outcomes_in window (datagrams ++ datagram ∷ []))
        ≡ with_outcome (outcome_counts (outcomes_in window datagrams))
        (outcome_behind window datagrams datagram) }
{}

/// The numbers of a session begin at the least multiple of 2^32 that is more than 8 above all
/// earlier ones, so in a window of at most 8 no picture of it has the number of an earlier
/// session's.
#[tactic(auto, using(crate::proofs::Apart::laws))]
pub fn sessions_have_numbers_apart()
    ensures above { (number : ℕ) → number + 8 < base_above number }
    ensures near { (number : ℕ) → base_above number ≤ number + 8 + 2 ^ 32 }
    ensures multiple { (number : ℕ) → base_above number % 2 ^ 32 ≡ 0 }
    ensures apart { (window : ℕ) (hs : List HeardSession) (h : HeardSession) (n : ℕ) → window ≤ 8
        → is_opened_in window hs n ≡ true → is_opened (entered_behind window hs h) n ≡ false }
{}

/// The first session opens at the first header that is accepted. A session ends at the first end of
/// its source; it has all fragments of its source up to the first datagram after that end that
/// opens another session, and that one opens the next.
#[tactic(auto, using(crate::proofs::Following::laws))]
pub fn sessions_follow_each_other()
    ensures none { (datagrams : List (List ℕ)) → list_any (λ d. is_some (begins d)) datagrams
        ≡ false → sessions_of datagrams ≡ [] }
    ensures first { (before : List (List ℕ)) (d : List ℕ) (s : Session)
        → list_any (λ d. is_some (begins d)) before ≡ false → begins d ≡ Some s
        → sessions_of (before ++ d ∷ []) ≡ just_opened s ∷ [] }
    ensures open { (hs : List HeardSession) (s : Session) (datagrams : List (List ℕ))
        → list_any (ends s) datagrams ≡ false → fold hears (just_opened s ∷ hs) datagrams
        ≡ record {
          session = s;
          has_ended = false;
          fragments = filter_map (fragment_in s) datagrams;
        } ∷ hs }
    ensures ended { (hs : List HeardSession) (s : Session) (before : List (List ℕ)) (last : List ℕ)
        (behind : List (List ℕ))
        → list_any (ends s) before ≡ false → ends s last ≡ true → list_any (opens_other s) behind
        ≡ false → fold hears (just_opened s ∷ hs) (before ++ last ∷ behind)
        ≡ record {
          session = s;
          has_ended = true;
          fragments = filter_map (fragment_in s) (before
              ++ last ∷ behind);
        } ∷ hs }
    ensures next { (hs : List HeardSession) (s : Session) (before : List (List ℕ)) (last : List ℕ)
        (behind : List (List ℕ))
        → list_any (ends s) before ≡ false → ends s last ≡ true → list_any (opens_other s) behind
        ≡ false → (d : List ℕ) (t : Session) → begins d ≡ Some t → is_other s t ≡ true
        → fold hears (just_opened s ∷ hs) ((before ++ last ∷ behind) ++ d ∷ [])
        ≡ just_opened t ∷ record {
          session = s;
          has_ended = true;
          fragments = filter_map (fragment_in s) (before
              ++ last ∷ behind);
        } ∷ hs }
{}

/// A datagram that opens a session is HeaderNew, and no other is; an end of the last session is End,
/// and a fragment of it has the fragment's outcome by what was entered of that session; any other
/// leaves the sessions as they were.
#[tactic(auto, using(crate::proofs::SessionOutcomes::laws))]
pub fn outcomes_say_what_datagrams_do()
    ensures new { (window : ℕ) (before : List (List ℕ)) (d : List ℕ) (s : Session)
        → opens_next (sessions_of before) (begins d) ≡ Some s → outcome_behind window before d
        ≡ HeaderNew }
    ensures new_only { (window : ℕ) (before : List (List ℕ)) (d : List ℕ)
        → outcome_behind window before d ≡ HeaderNew
        → (s : Session) × (opens_next (sessions_of before) (begins d) ≡ Some s) }
    ensures fragment { (window : ℕ) (h : HeardSession) (hs : List HeardSession)
        (before : List (List ℕ))
        → sessions_of before ≡ h ∷ hs → (d : List ℕ) (f : Fragment) → fragment_in h.session d
        ≡ Some f → outcome_behind window before d
        ≡ fragment_outcome (base_above (greatest_of window hs)) window h.session.sequence
        (entered_behind window hs h) f }
    ensures at_end { (window : ℕ) (h : HeardSession) (hs : List HeardSession)
        (before : List (List ℕ))
        → sessions_of before ≡ h ∷ hs → (d : List ℕ) → ends h.session d ≡ true
        → outcome_behind window before d ≡ End }
    ensures other { (h : HeardSession) (hs : List HeardSession) (d : List ℕ)
        → opens_behind h (begins d) ≡ None → fragment_in h.session d ≡ None → ends h.session d
        ≡ false → hears (h ∷ hs) d ≡ h ∷ hs }
{}

/// What is written after earlier sessions: of a session that opens nothing, of its datagrams each
/// picture as it is let go, and where it is over those that are left.
#[tactic(auto, using(crate::proofs::SessionOutput::laws))]
pub fn sessions_are_written_in_order()
    ensures opening { (window : ℕ) (hs : List HeardSession) (s : Session)
        → last_so_far window (just_opened s ∷ hs) ≡ all_output window hs }
    ensures datagram { (window : ℕ) (hs : List HeardSession) (h : HeardSession) (d : List ℕ)
        → (rest : List ℕ)
        × (let_go_numbers window h.session.sequence (entered_behind window hs (with_datagram h d))
        ≡ let_go_numbers window h.session.sequence (entered_behind window hs h) ++ rest)
        × (last_so_far window (with_datagram h d ∷ hs) ≡ last_so_far window (h ∷ hs)
        ++ flat_map
        (frame_bytes_at h.session.sequence (entered_behind window hs (with_datagram h d))) rest) }
    ensures over { (window : ℕ) (hs : List HeardSession) (h : HeardSession) → (rest : List ℕ)
        × (opened_numbers (entered_behind window hs h)
        ≡ let_go_numbers window h.session.sequence (entered_behind window hs h) ++ rest)
        × (all_output window (h ∷ hs) ≡ last_so_far window (h ∷ hs)
        ++ flat_map (frame_bytes_at h.session.sequence (entered_behind window hs h)) rest) }
{}

/// What a packet or a payload is written as is read back as the same value, the places aside. What
/// follows an RTP header is its payload; bytes after a payload join the body of a sequence header,
/// and are ignored elsewhere.
#[tactic(auto, using(crate::proofs::WrittenPackets::laws, crate::proofs::WrittenPayloads::laws))]
pub fn what_is_written_is_read()
    ensures rtp { (p : RtpPacket) (rest : List ℕ) → RtpFits p → rtp_packet (rtp_header p ++ rest)
        ≡ Ok (record p { from = 12; to = 12 + length rest }) }
    ensures payload { (value : PayloadValue) (behind : List ℕ) → IsWritable value
        → payload (payload_bytes value ++ behind) ≡ Ok (read_back value behind) }
{}
