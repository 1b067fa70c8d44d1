use libc::net::{SO_RCVBUF, SOL_SOCKET, getsockopt, setsockopt};
use std::net::UdpSocket;
use std::os::fd::AsRawFd;

/// Asks the system to keep so many bytes of what comes, of which it takes as many as it may, and answers how
/// many it says that it keeps. On Linux that is twice what it took, since its own bookkeeping counts too.
pub(crate) fn widen(socket: &UdpSocket, bytes: u32) -> Option<u32> {
    set(socket.as_raw_fd(), bytes);
    width(socket.as_raw_fd())
}

fn set(fd: i32, bytes: u32) -> i32 {
    let mut value = [0u8; 16];
    value[..4].copy_from_slice(&bytes.to_ne_bytes());
    unsafe { setsockopt(fd, SOL_SOCKET, SO_RCVBUF, &value, 4) }
}

fn width(fd: i32) -> Option<u32> {
    let mut value = [0u8; 16];
    let mut len = 4;
    let status = unsafe { getsockopt(fd, SOL_SOCKET, SO_RCVBUF, &mut value, &mut len) };
    if status != 0 || len != 4 {
        return None;
    }
    Some(u32::from_ne_bytes([value[0], value[1], value[2], value[3]]))
}
