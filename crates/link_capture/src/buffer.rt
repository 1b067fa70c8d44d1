ghost use Rattle.std.specs.Prelude.{◌≤◌};

/// As many bytes as the longest entry has.
pub(crate) const ROOM: usize = 65_537;

/// Entries that are kept, to go out in one write: at most 65,537 bytes.
#[derive(Drop)]
pub struct EntryBuffer {
    pub(crate) bytes: [u8; ROOM],
    // So many of the bytes are those of entries.
    pub(crate) len: usize,
    ghost within: { len ≤ 65537 },
}
