//! The lines that say how far a command is, written by a thread of their own.

use crate::plan::{Counted, LineForm, Rhythm};
use run_counts::{Counts, Flow, RunCounts};
use std::alloc::{AllocError, Global};
use std::sync::atomic::{AtomicBool, Ordering};
use std::sync::{Arc, Wait};
use std::thread::{JoinHandle, Parker, Threads};
use std::time::{Clock, Duration, Instant};
use std::{io, thread};
use vc_ports::{Sink, write_all};

// How often it is looked whether the time of a line has come.
const LOOK_MILLIS: u64 = 100;

// Where the thread waits, and whether it is to end.
#[derive(Drop)]
struct Bell {
    parker: Parker,
    is_over: AtomicBool,
}

/// The lines of a command that runs. They have to be stopped.
pub(crate) struct RunningLines {
    bell: Arc<Bell>,
    handle: JoinHandle<()>,
}

impl RunningLines {
    /// Begins to write lines of this form in this rhythm. None where no thread or no memory can be had.
    pub(crate) fn start<H, L>(
        rt: H,
        alloc: Global,
        (form, rhythm): (LineForm, Rhythm),
        counts: Arc<RunCounts>,
        lines: L,
    ) -> Option<RunningLines>
    where
        H: Threads + Wait + Clock + Copy + Send + Sync + 'static,
        L: Sink + Drop + Send + 'static,
    {
        let bell = Arc::new(
            alloc,
            Bell {
                parker: Parker::new(),
                is_over: AtomicBool::new(false),
            },
        )
        .ok()?;
        let writer = LineWriter {
            alloc,
            form,
            rhythm,
            counts,
            bell: Arc::try_clone(&bell).ok()?,
            lines,
            written: 0,
        };
        let handle = writer.start(rt).ok()?;
        Some(RunningLines { bell, handle })
    }

    /// Ends them, and waits until they have ended.
    pub(crate) fn stop<H: Threads>(self, rt: &H) {
        let RunningLines { bell, handle } = self;
        bell.is_over.store(true, Ordering::SeqCst);
        bell.parker.unpark();
        handle.join(rt);
    }
}

// What the thread has.
#[derive(Drop)]
struct LineWriter<L> {
    alloc: Global,
    form: LineForm,
    rhythm: Rhythm,
    counts: Arc<RunCounts>,
    bell: Arc<Bell>,
    lines: L,
    // How many bytes the last line has that stands in place.
    written: usize,
}

impl<L: Sink + Drop + Send + 'static> LineWriter<L> {
    fn start<H: Threads + Wait + Clock + Copy + Send + Sync + 'static>(
        self,
        rt: H,
    ) -> io::Result<JoinHandle<()>> {
        Ok(thread::spawn(&rt, move || run(&rt, self))?)
    }
}

fn run<H: Wait + Clock, L: Sink + Drop>(rt: &H, mut writer: LineWriter<L>) {
    let Ok(start) = Instant::now(rt) else {
        return;
    };
    let mut course = Course::new(writer.rhythm.first);
    for _ in rt.forever() {
        if writer.bell.is_over.load(Ordering::SeqCst) {
            writer.end();
            return;
        }
        if let Ok(gone) = start.elapsed(rt) {
            let millis = u64::try_from(gone.as_millis()).unwrap_or(u64::MAX);
            writer.look(&mut course, millis);
        }
        writer
            .bell
            .parker
            .park_timeout(rt, Duration::from_millis(LOOK_MILLIS));
    }
}

// How the counts went on, in milliseconds since the start.
#[derive(Clone, Copy)]
struct Course {
    // When the next line is due, in seconds.
    next: u64,
    // When the last line was written, and what had gone by then.
    last: u64,
    bytes: u64,
    // When it was seen last that datagrams came, and how many had.
    came: u64,
    datagrams: u64,
}

impl Course {
    fn new(next: u64) -> Course {
        Course {
            next,
            last: 0,
            bytes: 0,
            came: 0,
            datagrams: 0,
        }
    }
}

// A number in tenths.
fn tenths(alloc: Global, tenths: u64) -> Result<String, AllocError> {
    let whole = tenths / 10;
    let tenth = tenths % 10;
    format!(in alloc; "{whole}.{tenth}")
}

impl<L: Sink> LineWriter<L> {
    // Writes a line, if its time has come.
    fn look(&mut self, course: &mut Course, now: u64) {
        let counts = self.counts.read();
        let flow = self.form.flow(&counts);
        if flow.datagrams != course.datagrams {
            course.datagrams = flow.datagrams;
            course.came = now;
        }
        if now / 1_000 < course.next {
            return;
        }
        if let Ok(line) = self.line(course, &counts, flow, now) {
            self.put(&line);
        }
        course.last = now;
        course.bytes = flow.bytes;
        course.next = (now / 1_000).saturating_add(self.rhythm.every);
    }

    fn line(
        &self,
        course: &Course,
        counts: &Counts,
        flow: Flow,
        now: u64,
    ) -> Result<String, AllocError> {
        let alloc = self.alloc;
        let mut line = String::new(alloc);
        let seconds = now / 1_000;
        line.push_str(format!(in alloc; "running seconds {seconds}")?.as_str())?;
        if self.form.has_frames {
            let frames = counts.frames;
            line.push_str(format!(in alloc; " frames {frames}")?.as_str())?;
        }
        let unit = if self.form.counted == Counted::Units {
            "units"
        } else {
            "datagrams"
        };
        let datagrams = flow.datagrams;
        let bytes = flow.bytes.saturating_sub(course.bytes);
        let millis = now.saturating_sub(course.last).max(1);
        let mbits = tenths(alloc, bytes.saturating_mul(8) / millis / 100)?;
        line.push_str(format!(in alloc; " {unit} {datagrams} mbits {mbits}")?.as_str())?;
        if self.form.has_losses {
            let idle = now.saturating_sub(course.came) / 100;
            self.push_losses(&mut line, counts, idle)?;
        }
        if self.form.has_delays {
            let refused = counts.refused;
            let behind = tenths(alloc, counts.behind / 100)?;
            line.push_str(format!(in alloc; " refused {refused} behind {behind}")?.as_str())?;
        }
        Ok(line)
    }

    fn push_losses(&self, line: &mut String, counts: &Counts, idle: u64) -> Result<(), AllocError> {
        let alloc = self.alloc;
        let late = counts.late;
        let incomplete = counts.incomplete;
        let unsound = counts.unsound;
        line.push_str(format!(in alloc;
            " late {late} incomplete {incomplete} unsound {unsound}"
        )?.as_str())?;
        let no_room = counts.no_room;
        let idle = tenths(alloc, idle)?;
        line.push_str(format!(in alloc; " no-room {no_room} idle {idle}")?.as_str())
    }

    // Writes a line, in place of the last one or below it.
    fn put(&mut self, line: &String) {
        if !self.rhythm.in_place {
            let _ = write_all(&mut self.lines, line.as_bytes());
            let _ = write_all(&mut self.lines, b"\n");
            return;
        }
        let _ = write_all(&mut self.lines, b"\r");
        let _ = write_all(&mut self.lines, line.as_bytes());
        for _ in line.len()..self.written {
            let _ = write_all(&mut self.lines, b" ");
        }
        self.written = line.len();
    }

    // What is written next is to begin a line.
    fn end(&mut self) {
        if self.written > 0 {
            let _ = write_all(&mut self.lines, b"\n");
        }
    }
}
