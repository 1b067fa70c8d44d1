use link_sender::Datagram;
use vc_ports::Turn;

/// When the datagrams of a frame go out, one after another: those that have a timestamp in common are of one
/// picture, which has the time up to the timestamp of the next.
#[derive(Clone, Copy)]
pub(crate) struct Turns<'a> {
    // The datagrams of the pictures that haven't begun.
    rest: &'a [Datagram],
    // The timestamp of the next frame.
    next_frame: u32,
    // That of the last datagram, if there was one.
    last: Option<Turn>,
}

impl<'a> Turns<'a> {
    pub(crate) fn new(datagrams: &'a [Datagram], next_frame: u32) -> Turns<'a> {
        Turns {
            rest: datagrams,
            next_frame,
            last: None,
        }
    }

    /// The turn of the next datagram.
    pub(crate) fn next(&mut self) -> Turn {
        let turn = match self.last {
            Some(last) if last.before.saturating_add(1) < last.count => Turn {
                before: last.before.saturating_add(1),
                ..last
            },
            _ => self.begin_picture(),
        };
        self.last = Some(turn);
        turn
    }

    // The turn of the first datagram of the next picture.
    fn begin_picture(&mut self) -> Turn {
        let timestamp = first_timestamp(self.rest).unwrap_or(self.next_frame);
        let count = self
            .rest
            .iter()
            .position(|datagram| datagram.timestamp() != timestamp)
            .unwrap_or(self.rest.len());
        self.rest = self.rest.get(count..).unwrap_or(&[]);
        let next = first_timestamp(self.rest).unwrap_or(self.next_frame);
        Turn {
            timestamp,
            ticks: next.wrapping_sub(timestamp),
            before: 0,
            count,
        }
    }
}

fn first_timestamp(datagrams: &[Datagram]) -> Option<u32> {
    Some(datagrams.first()?.timestamp())
}
