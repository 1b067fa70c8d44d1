use crate::running::RunningLines;
use std::thread::Threads;
use vc_ports::{Sink, Took};

/// A report, before whose first byte the lines end that say how far the command is. It has to be stopped.
pub(crate) struct LastReport<E, H> {
    pub(crate) report: E,
    pub(crate) rt: H,
    pub(crate) lines: Option<RunningLines>,
}

fn hush<H: Threads>(rt: &H, lines: &mut Option<RunningLines>) {
    if let Some(lines) = lines.take() {
        lines.stop(rt);
    }
}

impl<E: Sink + Drop, H: Threads + Copy> LastReport<E, H> {
    /// Ends the lines, if they haven't ended, and the report.
    pub(crate) fn stop(self) {
        let LastReport {
            report: _,
            rt,
            lines,
        } = self;
        if let Some(lines) = lines {
            lines.stop(&rt);
        }
    }
}

impl<E: Sink, H: Threads> Sink for LastReport<E, H> {
    ghost held = { λ r. E.held r.report };

    ghost faults = { λ r. E.faults r.report };

    fn write(&mut self, piece: &[u8]) -> Took {
        hush(&self.rt, &mut self.lines);
        self.report.write(piece)
    }
}
