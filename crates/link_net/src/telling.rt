use crate::backlog::Arrival;
use run_counts::RunCounts;

/// Tells of a datagram of so many bytes that went out.
pub(crate) fn tell_sent(watch: Option<&RunCounts>, bytes: usize) {
    if let Some(watch) = watch {
        watch.add_sent(bytes);
    }
}

/// Tells that so many datagrams were refused in all.
pub(crate) fn tell_refused(watch: Option<&RunCounts>, refused: u64) {
    if let Some(watch) = watch {
        watch.tell_refused(refused);
    }
}

/// Tells of what came, and that so many datagrams found no room in all.
pub(crate) fn tell_came(watch: Option<&RunCounts>, arrival: &Arrival, dropped: u64) {
    let Some(watch) = watch else {
        return;
    };
    watch.tell_no_room(dropped);
    if let Arrival::Datagram(count) = arrival {
        watch.add_came(*count);
    }
}
