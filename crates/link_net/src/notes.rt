use std::io;

/// What a wire has to say at its end, beside what it gave and took.
#[derive(Drop)]
pub struct WireNotes {
    /// The address that it was given last.
    pub address: Option<String>,
    /// Why the last call failed that did.
    pub error: Option<io::Error>,
    /// How many datagrams the network refused; they are lost.
    pub unsent: u64,
    /// How what came was kept, where it listened.
    pub backlog: Option<BacklogNotes>,
}

/// How what came was kept until it was taken.
#[derive(Clone, Copy)]
pub struct BacklogNotes {
    /// How many datagrams found no room.
    pub dropped: u64,
    /// How many bytes the system's own buffer has, where it says so.
    pub system: Option<u32>,
}
