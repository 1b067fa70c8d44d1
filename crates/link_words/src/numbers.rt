ghost use Rattle.std.specs.Prelude.{◌≡◌, ◌≤◌, ◌<◌, ◌^◌, min, Some, IfSome};
ghost use Rattle.std.specs.List.{list_all};
ghost use Rattle.vc_types.specs.Settings.{within};
ghost use Rattle.link_words.specs.Numbers.{digits_number, is_decimal, number_within};

// No option has a number as great as this: digits are read no further.
const TOO_GREAT: u64 = 1 << 32;

fn has_digits_only(word: &[u8]) -> bool
    ensures { result ≡ list_all (within 48 57) word.now }
{
    word.iter().all(|digit| b'0' <= *digit && *digit <= b'9')
}

fn is_decimal(word: &[u8]) -> bool
    ensures { result ≡ is_decimal word.now }
{
    !word.is_empty() && (word.len() == 1 || word[0] != b'0') && has_digits_only(word)
}

// The number that digits write, if it is not too great.
#[tactic(auto, using(crate::proofs::Digits::next_digit))]
fn capped_number(digits: &[u8]) -> u64
    ensures { result ≡ min (digits_number digits.now) TOO_GREAT }
{
    let mut number = 0;
    'digits: for digit in digits {
        number = (10 * number + u64::from(digit.saturating_sub(b'0'))).min(TOO_GREAT);
    }
    number
}

// The number of a word, where it is in a range.
#[tactic(auto, unfolding(crate::specs::Numbers::number_within))]
pub(crate) fn number_within(word: &[u8], low: u32, high: u32) -> Option<u32>
    ensures value { result ≡ number_within low high word.now }
    ensures range { IfSome result (λ number. (low ≤ number) × (number ≤ high)) }
{
    if !is_decimal(word) {
        return None;
    }
    let number = capped_number(word);
    if u64::from(low) <= number && number <= u64::from(high) {
        Some(number as u32)
    } else {
        None
    }
}
