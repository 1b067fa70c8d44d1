ghost use Rattle.std.specs.Prelude.{◌≡◌};
ghost use Rattle.link_hearing.specs.Inputs.{form_of};

/// What the bytes of an input are.
#[derive(Clone, Copy)]
pub enum InputForm {
    /// A capture: datagrams one after another, each behind its length in two bytes.
    Capture,
    /// A pcap file. Its datagrams are the payloads that its records carry to a port; port 0 stands for all.
    Pcap { port: u16 },
}

impl InputForm {
    /// That of a pcap file where there is a port, and else of a capture.
    pub fn of(port: Option<u16>) -> InputForm
        ensures { result ≡ form_of port }
    {
        match port {
            Some(port) => InputForm::Pcap { port },
            None => InputForm::Capture,
        }
    }
}
