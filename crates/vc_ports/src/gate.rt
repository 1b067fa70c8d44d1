/// What a worker passes before it decodes a slice. It promises nothing: a test may hold a worker up there.
pub trait Gate: Drop {
    fn pass(&self, worker: u32, slice: u32);
}

/// A gate that is open.
#[derive(Clone, Copy)]
pub struct NoGate;

impl Gate for NoGate {
    fn pass(&self, _worker: u32, _slice: u32) {}
}
