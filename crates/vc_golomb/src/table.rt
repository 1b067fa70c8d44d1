ghost use Rattle.std.specs.Prelude.{◌≡◌, ◌+◌, ◌*◌, ◌/◌, ◌^◌, ◌<◌, ◌≤◌, min};
ghost use Rattle.vc_golomb.specs.Table.{IsLook};

/// More than any number that is accepted.
pub(crate) const CAP: u64 = (1 << 62) + 1;

/// What eight bits say of the code that they go on with: how many of them belong to it, and the number of the
/// digits among them. Where it is fewer than eight bits, the code ends with them.
#[derive(Clone, Copy)]
pub(crate) struct Look {
    pub(crate) taken: u32,
    pub(crate) digits: u8,
}

pub(crate) fn look_up(byte: u8) -> Look
    ensures bits { IsLook byte result.taken result.digits }
    ensures taken { result.taken ≤ 8 }
    ensures digits { result.digits < 16 }
{
    Look {
        taken: u32::from(TAKEN[byte as usize]),
        digits: DIGITS[byte as usize],
    }
}

/// A number, or one above CAP in its place, and the digits behind it.
pub(crate) fn with_digits(number: u64, look: Look) -> u64
    requires number { number ≤ CAP + 1 }
    requires taken { look.taken ≤ 8 }
    requires digits { look.digits < 16 }
    ensures { result ≡ min (number * 2 ^ (look.taken / 2) + look.digits) (CAP + 1) }
{
    let whole = (u128::from(number) << (look.taken / 2)) + u128::from(look.digits);
    whole.min(u128::from(CAP) + 1) as u64
}

static TAKEN: [u8; 256] = [
    8, 8, 7, 7, 8, 8, 7, 7, 5, 5, 5, 5, 5, 5, 5, 5, 8, 8, 7, 7, 8, 8, 7, 7, 5, 5, 5, 5, 5, 5, 5, 5,
    3, 3, 3, 3, 3, 3, 3, 3, 3, 3, 3, 3, 3, 3, 3, 3, 3, 3, 3, 3, 3, 3, 3, 3, 3, 3, 3, 3, 3, 3, 3, 3,
    8, 8, 7, 7, 8, 8, 7, 7, 5, 5, 5, 5, 5, 5, 5, 5, 8, 8, 7, 7, 8, 8, 7, 7, 5, 5, 5, 5, 5, 5, 5, 5,
    3, 3, 3, 3, 3, 3, 3, 3, 3, 3, 3, 3, 3, 3, 3, 3, 3, 3, 3, 3, 3, 3, 3, 3, 3, 3, 3, 3, 3, 3, 3, 3,
    1, 1, 1, 1, 1, 1, 1, 1, 1, 1, 1, 1, 1, 1, 1, 1, 1, 1, 1, 1, 1, 1, 1, 1, 1, 1, 1, 1, 1, 1, 1, 1,
    1, 1, 1, 1, 1, 1, 1, 1, 1, 1, 1, 1, 1, 1, 1, 1, 1, 1, 1, 1, 1, 1, 1, 1, 1, 1, 1, 1, 1, 1, 1, 1,
    1, 1, 1, 1, 1, 1, 1, 1, 1, 1, 1, 1, 1, 1, 1, 1, 1, 1, 1, 1, 1, 1, 1, 1, 1, 1, 1, 1, 1, 1, 1, 1,
    1, 1, 1, 1, 1, 1, 1, 1, 1, 1, 1, 1, 1, 1, 1, 1, 1, 1, 1, 1, 1, 1, 1, 1, 1, 1, 1, 1, 1, 1, 1, 1,
];

static DIGITS: [u8; 256] = [
    0, 1, 0, 0, 2, 3, 1, 1, 0, 0, 0, 0, 0, 0, 0, 0, 4, 5, 2, 2, 6, 7, 3, 3, 1, 1, 1, 1, 1, 1, 1, 1,
    0, 0, 0, 0, 0, 0, 0, 0, 0, 0, 0, 0, 0, 0, 0, 0, 0, 0, 0, 0, 0, 0, 0, 0, 0, 0, 0, 0, 0, 0, 0, 0,
    8, 9, 4, 4, 10, 11, 5, 5, 2, 2, 2, 2, 2, 2, 2, 2, 12, 13, 6, 6, 14, 15, 7, 7, 3, 3, 3, 3, 3, 3,
    3, 3, 1, 1, 1, 1, 1, 1, 1, 1, 1, 1, 1, 1, 1, 1, 1, 1, 1, 1, 1, 1, 1, 1, 1, 1, 1, 1, 1, 1, 1, 1,
    1, 1, 0, 0, 0, 0, 0, 0, 0, 0, 0, 0, 0, 0, 0, 0, 0, 0, 0, 0, 0, 0, 0, 0, 0, 0, 0, 0, 0, 0, 0, 0,
    0, 0, 0, 0, 0, 0, 0, 0, 0, 0, 0, 0, 0, 0, 0, 0, 0, 0, 0, 0, 0, 0, 0, 0, 0, 0, 0, 0, 0, 0, 0, 0,
    0, 0, 0, 0, 0, 0, 0, 0, 0, 0, 0, 0, 0, 0, 0, 0, 0, 0, 0, 0, 0, 0, 0, 0, 0, 0, 0, 0, 0, 0, 0, 0,
    0, 0, 0, 0, 0, 0, 0, 0, 0, 0, 0, 0, 0, 0, 0, 0, 0, 0, 0, 0, 0, 0, 0, 0, 0, 0, 0, 0, 0, 0, 0, 0,
    0, 0,
];
