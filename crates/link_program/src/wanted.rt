use vc_ports::{Pace, Turn};

/// A pace that lets everything go at once where none is wanted. It keeps the other borrowed.
#[derive(Drop)]
pub(crate) struct WantedPace<'a, P> {
    pub(crate) pace: &'a mut P,
    pub(crate) is_wanted: bool,
}

impl<'a, P: Pace> Pace for WantedPace<'a, P> {
    fn wait(&mut self, turn: &Turn) {
        if self.is_wanted {
            self.pace.wait(turn);
        }
    }
}
