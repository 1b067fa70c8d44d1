use link_receiver::Receiver;
use run_counts::RunCounts;
use std::thread::Threads;

/// Tells of a datagram of so many bytes.
pub(crate) fn tell_heard(watch: Option<&RunCounts>, bytes: usize) {
    if let Some(watch) = watch {
        watch.add_passed(bytes);
    }
}

/// Tells what a receiver has counted, and which frames it hasn't written.
pub(crate) fn tell_written<H: Threads + Copy>(watch: Option<&RunCounts>, receiver: &Receiver<H>) {
    if let Some(watch) = watch {
        let tally = receiver.tally();
        watch.tell_lost(tally.late, tally.incomplete, tally.unsound);
        if tally.frames > watch.frames() {
            watch.tell_frames(tally.frames);
            watch.tell_missing(receiver.missing());
        }
    }
}
