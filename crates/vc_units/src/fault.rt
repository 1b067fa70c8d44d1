/// Why no unit was read.
#[derive(Clone, Copy, Debug, PartialEq, Eq)]
pub enum UnitFault {
    /// The first four bytes aren't "BBCD".
    Prefix,
    /// The distance to the next unit is below 13 or above 268,435,456. That of an end of sequence isn't used.
    Offset,
    /// The parse code, in hexadecimal, isn't 00, 10, 20, 30, C8 or E8.
    Code,
    /// The source ended within a unit.
    Short,
    /// A read failed.
    ReadFault,
    /// Memory ran out.
    NoMemory,
}
