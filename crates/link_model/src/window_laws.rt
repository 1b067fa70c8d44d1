ghost use Rattle.std.specs.Prelude.{◌≡◌, ℕ, ◌<◌, ◌≤◌, ◌^◌, true, false, ◌&&◌, ◌||◌, not};
ghost use Rattle.std.specs.Prelude.{if◌then◌else◌, List, [], ◌∷◌, filter, length, Some, None};
ghost use Rattle.std.specs.List.{last_or};
ghost use Rattle.std.specs.Option.{option_map};
ghost use Rattle.link_model.specs.Books.{book_of};
ghost use Rattle.link_model.specs.Judgement.{fragment_outcome};
ghost use Rattle.link_model.specs.Numbers.{base_above, enters, entered, greatest, is_late};
ghost use Rattle.link_model.specs.Numbers.{is_opened, nearest, parts_of, picture_number};
ghost use Rattle.link_model.specs.Output.{greatest_of};
ghost use Rattle.link_model.specs.Session.{Fragment, HeardSession, with_datagram, fragment_in};
ghost use Rattle.link_model.specs.Windows.{NumberedBook, Window, WindowPast, StandsForPast};
ghost use Rattle.link_model.specs.Windows.{new_window, new_past, late_in, number_by, closed_in};
ghost use Rattle.link_model.specs.Windows.{released_up_to, window_enters, window_outcome};
ghost use Rattle.link_model.specs.Windows.{past_enters, next_release, as_releasable, first_of};
ghost use Rattle.link_model.specs.Windows.{releasable_numbers, releases, past_releases, finishes};
ghost use Rattle.link_model.specs.Windows.{past_finishes, book_at, is_needed, session_past};
ghost use Rattle.vc_types.specs.SequenceHeader.{Sequence};

/// A window stands for its past: a new one for the empty one, and so on with a fragment more, a
/// release and the end of the input. It answers the fragment's outcome, and has the book of each
/// picture that is opened, until the picture is both closed and released.
pub fn windows_stand_for_their_past()
    ensures none { (s : Sequence) (size before : ℕ)
        → StandsForPast (new_window s size before) (new_past s size before) }
    ensures more { (w : Window) (p : WindowPast) → StandsForPast w p → p.is_ended ≡ false
        → (f : Fragment) → StandsForPast (window_enters w f) (past_enters p f) }
    ensures outcome { (w : Window) (p : WindowPast) → StandsForPast w p → p.is_ended ≡ false
        → (f : Fragment) → window_outcome w f
        ≡ fragment_outcome (base_above p.before) p.size p.sequence p.entries f }
    ensures released { (w : Window) (p : WindowPast) → StandsForPast w p → (n : ℕ)
        → first_of (releasable_numbers p) ≡ Some n
        → StandsForPast (releases w n) (past_releases p n) }
    ensures finished { (w : Window) (p : WindowPast) → StandsForPast w p
        → StandsForPast (finishes w) (past_finishes p) }
    ensures book { (w : Window) (p : WindowPast) → StandsForPast w p → (n : ℕ)
        → book_at w.books n ≡ (if is_opened p.entries n && is_needed p n
        then Some (book_of p.sequence (parts_of n p.entries)) else None) }
{}

/// The picture that a window names next is the least that is let go and not released; it is
/// opened, and greater than those that were released. Once it is released the others are left, in
/// their order.
pub fn windows_release_in_order()
    ensures next { (w : Window) (p : WindowPast) → StandsForPast w p → next_release w
        ≡ option_map (as_releasable p) (first_of (releasable_numbers p)) }
    ensures rest { (w : Window) (p : WindowPast) → StandsForPast w p → (n : ℕ)
        → first_of (releasable_numbers p) ≡ Some n → releasable_numbers p
        ≡ n ∷ releasable_numbers (past_releases p n) }
    ensures opened { (w : Window) (p : WindowPast) → StandsForPast w p → (n : ℕ)
        → first_of (releasable_numbers p) ≡ Some n → is_opened p.entries n ≡ true }
    ensures book { (w : Window) (p : WindowPast) → StandsForPast w p → (n : ℕ)
        → first_of (releasable_numbers p) ≡ Some n → book_at w.books n
        ≡ Some (book_of p.sequence (parts_of n p.entries)) }
    ensures rising { (w : Window) (p : WindowPast) → StandsForPast w p → (n m : ℕ)
        → first_of (releasable_numbers p) ≡ Some n
        → released_up_to (last_or None p.released) m ≡ true → m < n }
{}

/// At most as many pictures as may be open have books without being closed, and once all that are
/// let go are released these are all books. A late fragment changes nothing, and no fragment ends
/// the input.
pub fn windows_stay_small()
    ensures few { (w : Window) (p : WindowPast) → StandsForPast w p
        → length (filter (λ (b : NumberedBook). not (closed_in w b.number)) w.books) ≤ w.size }
    ensures all { (w : Window) (p : WindowPast) → StandsForPast w p → releasable_numbers p ≡ []
        → length w.books ≤ w.size }
    ensures late { (w : Window) (f : Fragment) → late_in w (number_by w f.number) ≡ true
        → window_enters w f ≡ w }
    ensures running { (w : Window) (f : Fragment) → (window_enters w f).is_ended ≡ w.is_ended }
{}

/// The window of a list's last session: its past goes on with each datagram, and its greatest number
/// is that of all sessions so far. The picture of a fragment that isn't late is the nearest one to
/// the greatest number after it, and has its book.
pub fn windows_follow_sessions()
    ensures greatest { (size : ℕ) (hs : List HeardSession) (h : HeardSession)
        → (released : List ℕ) (w : Window)
        → StandsForPast w (session_past size hs h released) → w.top ≡ greatest_of size (h ∷ hs) }
    ensures more { (size : ℕ) (hs : List HeardSession) (h : HeardSession)
        → (released : List ℕ) (d : List ℕ) (f : Fragment)
        → fragment_in h.session d ≡ Some f → past_enters (session_past size hs h released) f
        ≡ session_past size hs (with_datagram h d) released }
    ensures same { (size : ℕ) (hs : List HeardSession) (h : HeardSession)
        → (released : List ℕ) (d : List ℕ)
        → fragment_in h.session d ≡ None → session_past size hs (with_datagram h d) released
        ≡ session_past size hs h released }
    ensures number { (w : Window) (p : WindowPast) → StandsForPast w p → p.is_ended ≡ false
        → (f : Fragment) → let n = picture_number (base_above p.before) p.entries f.number in
        is_late p.size p.entries n ≡ false → (fragments : List Fragment)
        → p.entries ≡ entered (base_above p.before) p.size fragments → f.number < 2 ^ 32
        → nearest (window_enters w f).top f.number ≡ n }
    ensures book { (w : Window) (p : WindowPast) → StandsForPast w p → p.is_ended ≡ false
        → (f : Fragment) → let n = picture_number (base_above p.before) p.entries f.number in
        is_late p.size p.entries n ≡ false → 0 < p.size
        → book_at (window_enters w f).books n
        ≡ Some (book_of p.sequence (parts_of n (past_enters p f).entries)) }
{}
