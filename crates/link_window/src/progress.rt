ghost use Rattle.std.specs.Prelude.{◌≡◌, ◌+◌, ◌<◌, ◌^◌, ◌&&◌, ◌||◌, nat_le};
ghost use Rattle.link_model.specs.Windows.{released_up_to};

/// How far a window has come, which decides of each number whether its picture is closed, and
/// whether it is released.
#[derive(Clone, Copy)]
pub(crate) struct Progress {
    /// How many pictures may be open at a time.
    pub(crate) size: u8,
    /// The greatest number, before the first fragment that of the earlier sessions.
    pub(crate) top: u64,
    pub(crate) last_released: Option<u64>,
    pub(crate) is_ended: bool,
}

impl Progress {
    /// Whether the window has passed a number, which has 64 bits or a few more.
    pub(crate) fn has_passed(&self, number: u128) -> bool
        requires { number < 2 ^ 67 }
        ensures { result ≡ nat_le (number + self.now.size) self.now.top }
    {
        number + u128::from(self.size) <= u128::from(self.top)
    }

    pub(crate) fn is_released(&self, number: u64) -> bool
        ensures { result ≡ released_up_to self.now.last_released number }
    {
        match self.last_released {
            Some(last) => number <= last,
            None => false,
        }
    }

    /// Whether a picture is both closed and released.
    pub(crate) fn is_gone(&self, number: u64) -> bool
        ensures { result ≡ ((self.now.is_ended || nat_le (number + self.now.size) self.now.top)
            && released_up_to self.now.last_released number) }
    {
        (self.is_ended || self.has_passed(u128::from(number))) && self.is_released(number)
    }
}
