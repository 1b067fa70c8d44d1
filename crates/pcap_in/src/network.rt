/// What the frames of a file are, by the number of its network (the link-layer header type of libpcap).
#[derive(Clone, Copy)]
pub enum Network {
    /// 1: Ethernet frames.
    Ethernet,
    /// 113: packets of any network, each behind 16 bytes (Linux cooked capture, version 1).
    LinuxCooked,
    /// 276: the same, each behind 20 bytes (Linux cooked capture, version 2).
    LinuxCooked2,
}
