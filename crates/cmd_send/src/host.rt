use link_sender::Chooser;
use run_counts::RunCounts;
use std::alloc::Global;

/// What a command runs on: threads and memory, and the counts that it tells how far it is, if there are any.
#[derive(Clone, Copy)]
pub struct Host<'w, H> {
    pub rt: H,
    pub alloc: Global,
    pub watch: Option<&'w RunCounts>,
}

impl<'w, H> Host<'w, H> {
    /// The same, where nothing is told.
    pub fn unwatched(self) -> Host<'w, H> {
        Host {
            rt: self.rt,
            alloc: self.alloc,
            watch: None,
        }
    }
}

/// What encodes frames: the host, and what chooses the indices.
#[derive(Drop)]
pub struct Encoder<'w, H, F> {
    pub host: Host<'w, H>,
    pub chooser: Chooser<F>,
}
