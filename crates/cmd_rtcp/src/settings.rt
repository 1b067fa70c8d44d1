use link_hearing::InputForm;

/// How the source of a capture's datagrams is reported on.
#[derive(Clone, Copy)]
pub struct ReportSettings<'a> {
    /// Behind how many packets of the source there is a report, at least 1.
    pub every: u32,
    /// Who reports, where it isn't the source itself.
    pub ssrc: u32,
    /// The name of who reports (CNAME), 1 to 255 bytes of ASCII.
    pub cname: &'a str,
    /// Whether the source itself reports.
    pub sender: bool,
    /// The NTP time that the source reports, in seconds: the upper half of it.
    pub ntp: u32,
}

/// Which part of an input is read.
#[derive(Clone, Copy)]
pub struct InputPart {
    /// How many entries of a capture, or records of a pcap file, are read at most.
    pub packets: u32,
    /// Whether the input is a capture or a pcap file.
    pub form: InputForm,
}
