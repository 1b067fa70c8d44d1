use crate::missing::MissingFrames;
use std::sync::Mutex;
use std::sync::atomic::{AtomicU64, Ordering};

/// How many datagrams, and how many bytes they have.
#[derive(Clone, Copy, Default)]
pub struct Flow {
    pub datagrams: u64,
    pub bytes: u64,
}

/// The counts of a run, at some moment of it.
#[derive(Clone, Copy, Default)]
pub struct Counts {
    /// Frames read and sent, or frames written.
    pub frames: u64,
    /// Datagrams that carry them, or units of an elementary stream.
    pub passed: Flow,
    /// Datagrams that a wire sent, and datagrams that came from it.
    pub sent: Flow,
    pub came: Flow,
    /// Datagrams of pictures that were closed.
    pub late: u64,
    /// Pictures that were released without being complete, and complete ones that aren't sound.
    pub incomplete: u64,
    pub unsound: u64,
    /// Datagrams that the network refused, and datagrams that came and found no room.
    pub refused: u64,
    pub no_room: u64,
    /// By how many milliseconds the last datagram that waited for its moment went out after it.
    pub behind: u64,
}

/// Counts that one thread tells, and any may read. Each is right by itself: two that are read together may be
/// told one after the other.
#[derive(Drop)]
pub struct RunCounts {
    frames: AtomicU64,
    passed: FlowCount,
    sent: FlowCount,
    came: FlowCount,
    late: AtomicU64,
    incomplete: AtomicU64,
    unsound: AtomicU64,
    refused: AtomicU64,
    no_room: AtomicU64,
    behind: AtomicU64,
    missing: Mutex<MissingFrames>,
}

fn tell(count: &AtomicU64, value: u64) {
    count.store(value, Ordering::Relaxed);
}

// One thread tells, so nothing is lost between the two.
fn add(count: &AtomicU64, more: u64) {
    tell(count, read(count).saturating_add(more));
}

fn read(count: &AtomicU64) -> u64 {
    count.load(Ordering::Relaxed)
}

// A flow that one thread tells.
#[derive(Drop)]
struct FlowCount {
    datagrams: AtomicU64,
    bytes: AtomicU64,
}

impl FlowCount {
    fn new() -> FlowCount {
        FlowCount {
            datagrams: AtomicU64::new(0),
            bytes: AtomicU64::new(0),
        }
    }

    fn add(&self, bytes: usize) {
        add(&self.datagrams, 1);
        add(&self.bytes, bytes as u64);
    }

    fn tell(&self, flow: Flow) {
        tell(&self.datagrams, flow.datagrams);
        tell(&self.bytes, flow.bytes);
    }

    fn read(&self) -> Flow {
        Flow {
            datagrams: read(&self.datagrams),
            bytes: read(&self.bytes),
        }
    }
}

impl RunCounts {
    /// Nothing was done so far.
    pub fn new() -> RunCounts {
        RunCounts {
            frames: AtomicU64::new(0),
            passed: FlowCount::new(),
            sent: FlowCount::new(),
            came: FlowCount::new(),
            late: AtomicU64::new(0),
            incomplete: AtomicU64::new(0),
            unsound: AtomicU64::new(0),
            refused: AtomicU64::new(0),
            no_room: AtomicU64::new(0),
            behind: AtomicU64::new(0),
            missing: Mutex::new(MissingFrames::new()),
        }
    }

    /// So many frames were sent or written in all.
    pub fn tell_frames(&self, frames: u64) {
        tell(&self.frames, frames);
    }

    /// A datagram of a capture or of a wire, or a unit, of so many bytes.
    pub fn add_passed(&self, bytes: usize) {
        self.passed.add(bytes);
    }

    /// So many datagrams in all, which have so many bytes.
    pub fn tell_passed(&self, flow: Flow) {
        self.passed.tell(flow);
    }

    /// A wire sent a datagram of so many bytes.
    pub fn add_sent(&self, bytes: usize) {
        self.sent.add(bytes);
    }

    /// A datagram of so many bytes came from a wire.
    pub fn add_came(&self, bytes: usize) {
        self.came.add(bytes);
    }

    /// What became of datagrams and pictures in all.
    pub fn tell_lost(&self, late: u64, incomplete: u64, unsound: u64) {
        tell(&self.late, late);
        tell(&self.incomplete, incomplete);
        tell(&self.unsound, unsound);
    }

    /// So many datagrams were refused in all.
    pub fn tell_refused(&self, refused: u64) {
        tell(&self.refused, refused);
    }

    /// So many datagrams found no room in all.
    pub fn tell_no_room(&self, no_room: u64) {
        tell(&self.no_room, no_room);
    }

    /// A datagram goes out so many milliseconds after its moment.
    pub fn tell_behind(&self, behind: u64) {
        tell(&self.behind, behind);
    }

    /// These frames weren't written so far, unless another thread is asking for them.
    pub fn tell_missing(&self, missing: &MissingFrames) {
        if let Some(mut kept) = self.missing.try_lock() {
            *kept = *missing;
        }
    }

    /// The frames that weren't written, unless another thread is asking for them.
    pub fn missing(&self) -> Option<MissingFrames> {
        match self.missing.try_lock() {
            Some(missing) => Some(*missing),
            None => None,
        }
    }

    /// How many frames were told.
    pub fn frames(&self) -> u64 {
        read(&self.frames)
    }

    /// The counts as they stand.
    pub fn read(&self) -> Counts {
        Counts {
            frames: read(&self.frames),
            passed: self.passed.read(),
            sent: self.sent.read(),
            came: self.came.read(),
            late: read(&self.late),
            incomplete: read(&self.incomplete),
            unsound: read(&self.unsound),
            refused: read(&self.refused),
            no_room: read(&self.no_room),
            behind: read(&self.behind),
        }
    }
}
