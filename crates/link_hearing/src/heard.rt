use link_report::Ending;

/// What hearing the datagrams of an input came to.
#[derive(Clone, Copy)]
pub struct HeardInput {
    /// Whether they were heard to their end, or why not.
    pub ended: Result<(), Ending>,
    /// What was read of a pcap file; None of a capture.
    pub records: Option<RecordCounts>,
}

/// How many records of a pcap file were read whole, and how many of them carry no datagram.
#[derive(Clone, Copy)]
pub struct RecordCounts {
    pub records: u32,
    pub other: u32,
}
