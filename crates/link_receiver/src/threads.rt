use std::thread::Threads;

/// The threads for the pictures of a receiver with so many workers: none where there are no workers.
pub fn threads_beside<H: Threads + Copy>(rt: H, workers: u32) -> Option<H> {
    if workers > 0 { Some(rt) } else { None }
}
