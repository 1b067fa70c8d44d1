/// Why no entry was read.
#[derive(Clone, Copy, Debug, PartialEq, Eq)]
pub enum EntryFault {
    /// The source ended within an entry, whose first byte is `place` bytes from where the reader began.
    Cut { place: u64 },
    /// A read failed.
    ReadFault,
    /// Memory ran out.
    NoMemory,
}
