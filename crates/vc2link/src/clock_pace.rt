use run_counts::RunCounts;
use std::thread;
use std::time::{Clock, Duration, Instant};
use vc_ports::{Pace, Turn};

// The clock of timestamps has so many ticks a second.
const TICKS_A_SECOND: u64 = 90_000;

// A timestamp that is further from the last begins the schedule anew, where nothing said that it would come.
const FAR: u32 = 900_000;

// What is due so soon goes out with what is due now: shorter sleeps cost more than they keep apart.
const GROUP: u64 = 500_000;

/// A pace by the system's clock. Times are nanoseconds since the first datagram, which begins the schedule.
///
/// The datagrams of a picture go out evenly up to the moment of the next picture, none before the moment of
/// its own timestamp. Where a picture comes late, it has what is left of its time; where less than a quarter
/// is left, the schedule moves, so that a quarter is left. Where nobody knows how long a picture's time is
/// and how many datagrams it has, both are taken to be as they were for the picture before.
#[derive(Drop)]
pub(crate) struct ClockPace<'w, C> {
    clock: C,
    // Told by how much a datagram is late.
    watch: &'w RunCounts,
    start: Option<Instant>,
    picture: Option<Picture>,
}

// A picture whose datagrams go out.
#[derive(Clone, Copy)]
struct Picture {
    timestamp: u32,
    // The length of its time.
    ticks: u32,
    // The moment of its timestamp.
    due: u64,
    // The first of its datagrams goes out then, and they are to have gone out by then.
    from: u64,
    until: u64,
    // How many went out before this one, and how many there are to be.
    before: usize,
    count: usize,
}

// So many ticks in nanoseconds.
fn nanoseconds(ticks: u32) -> u64 {
    u64::from(ticks).saturating_mul(1_000_000_000) / TICKS_A_SECOND
}

impl Picture {
    // One whose timestamp has that moment, which now may be past.
    fn at(turn: &Turn, ticks: u32, count: usize, due: u64, now: u64) -> Picture {
        let length = nanoseconds(ticks);
        let due = due.max(now.saturating_sub(length / 4 * 3));
        Picture {
            timestamp: turn.timestamp,
            ticks,
            due,
            from: due.max(now),
            until: due.saturating_add(length),
            before: 0,
            count,
        }
    }

    // The next datagram of the same picture.
    fn with_one_more(self) -> Picture {
        Picture {
            before: self.before.saturating_add(1),
            ..self
        }
    }

    // The picture after this one, whose timestamp is so many ticks later.
    fn next(self, turn: &Turn, step: u32, now: u64) -> Picture {
        let due = self.due.saturating_add(nanoseconds(step));
        if turn.ticks > 0 {
            Picture::at(turn, turn.ticks, turn.count, due, now)
        } else {
            let ticks = if self.ticks > 0 {
                self.ticks.min(step)
            } else {
                step
            };
            Picture::at(turn, ticks, self.before.saturating_add(1), due, now)
        }
    }

    // When its datagram goes out.
    fn moment(&self) -> u64 {
        let length = self.until.saturating_sub(self.from);
        let before = self.before.min(self.count) as u64;
        let part = length.saturating_mul(before) / (self.count as u64).max(1);
        self.from.saturating_add(part)
    }
}

impl<'w, C: Clock> ClockPace<'w, C> {
    pub(crate) fn new(clock: C, watch: &'w RunCounts) -> ClockPace<'w, C> {
        ClockPace {
            clock,
            watch,
            start: None,
            picture: None,
        }
    }

    // The time. None where the clock can't be read.
    fn now(&mut self) -> Option<u64> {
        match self.start {
            Some(start) => {
                let gone = start.elapsed(&self.clock).ok()?;
                u64::try_from(gone.as_nanos()).ok()
            }
            None => {
                self.start = Some(Instant::now(&self.clock).ok()?);
                Some(0)
            }
        }
    }

    // The picture of a datagram, which stands at it; None where it is of an earlier picture.
    fn picture_of(&self, turn: &Turn, now: u64) -> Option<Picture> {
        let Some(last) = self.picture else {
            return Some(Picture::at(turn, turn.ticks, turn.count, now, now));
        };
        let step = turn.timestamp.wrapping_sub(last.timestamp);
        if step == 0 {
            Some(last.with_one_more())
        } else if step <= last.ticks.max(FAR) {
            Some(last.next(turn, step, now))
        } else if step.wrapping_neg() <= FAR {
            None
        } else {
            Some(Picture::at(turn, turn.ticks, turn.count, now, now))
        }
    }
}

impl<'w, C: Clock> Pace for ClockPace<'w, C> {
    fn wait(&mut self, turn: &Turn) {
        let Some(now) = self.now() else {
            return;
        };
        let Some(picture) = self.picture_of(turn, now) else {
            return;
        };
        self.picture = Some(picture);
        let moment = picture.moment();
        self.watch
            .tell_behind(now.saturating_sub(moment) / 1_000_000);
        let left = moment.saturating_sub(now);
        if left > GROUP {
            thread::sleep(&self.clock, Duration::from_nanos(left));
        }
    }
}
