use std::alloc::Global;

/// What pictures are decoded on: threads and memory.
#[derive(Clone, Copy)]
pub(crate) struct Machine<H> {
    pub(crate) rt: H,
    pub(crate) alloc: Global,
}
