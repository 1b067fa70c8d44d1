use std::io;
use std::io::ErrorKind;

// Linux's numbers of what the kinds don't tell apart.
const EPERM: i32 = 1;

const ENOBUFS: i32 = 105;

/// Whether the next datagram may go out though this one didn't: no room in the queue or in memory, no way to
/// the host for now, nobody at its port, or a filter's refusal.
pub fn is_transient(error: &io::Error) -> bool {
    match error.kind() {
        ErrorKind::WouldBlock
        | ErrorKind::Interrupted
        | ErrorKind::OutOfMemory
        | ErrorKind::NetworkDown
        | ErrorKind::NetworkUnreachable
        | ErrorKind::HostUnreachable
        | ErrorKind::ConnectionRefused => true,
        ErrorKind::PermissionDenied => error.raw_os_error() == Some(EPERM),
        ErrorKind::Uncategorized => error.raw_os_error() == Some(ENOBUFS),
        _ => false,
    }
}
