/// Why no record was read. Places are counted in bytes, from where the reader began.
#[derive(Clone, Copy, Debug, PartialEq, Eq)]
pub enum PcapFault {
    /// The source has fewer than the 24 bytes before the records, or they aren't those of a file in this
    /// format whose network is one of `Network`. `place` is 0.
    Header { place: u64 },
    /// The source ended within the record whose first byte is at `place`.
    Cut { place: u64 },
    /// The record whose first byte is at `place` keeps more than 262,144 bytes.
    Length { place: u64 },
    /// A read failed.
    ReadFault,
    /// Memory ran out.
    NoMemory,
}
