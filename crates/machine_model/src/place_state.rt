/// The state of a place between a feeder and its workers.
#[derive(Clone, Copy, Debug, PartialEq, Eq)]
pub enum PlaceState {
    Empty,
    /// A job waits there for a worker.
    Waiting,
    /// A worker holds it.
    Held,
    /// The job is decoded, and the feeder may take it.
    Done,
}
