ghost use Rattle.std.specs.Prelude.{◌≡◌, false};
ghost use Rattle.link_hearing.specs.Inputs.{form_of};

use link_hearing::InputForm;

/// How an input is decoded or unpacked.
#[derive(Clone, Copy)]
pub struct DecodeSettings {
    /// How many pictures may be open, 2 to 8.
    pub window: u8,
    /// How many workers slices are offered to.
    pub workers: u32,
    /// How many entries of a capture, or records of a pcap file, are read at most.
    pub packets: u32,
    /// Whether the input is a capture or a pcap file.
    pub form: InputForm,
    /// Whether gaps between frames are filled. An elementary stream has none.
    pub fill: bool,
}

impl DecodeSettings {
    /// For a pcap file where there is a port, and else for a capture. No gaps are filled.
    pub fn new(window: u8, workers: u32, packets: u32, port: Option<u16>) -> DecodeSettings
        ensures window { result.window ≡ window }
        ensures workers { result.workers ≡ workers }
        ensures packets { result.packets ≡ packets }
        ensures form { result.form ≡ form_of port }
        ensures fill { result.fill ≡ false }
    {
        DecodeSettings {
            window,
            workers,
            packets,
            form: InputForm::of(port),
            fill: false,
        }
    }

    /// The same, with gaps filled, or not.
    pub fn filling(self, fill: bool) -> DecodeSettings
        ensures window { result.window ≡ self.window }
        ensures workers { result.workers ≡ self.workers }
        ensures packets { result.packets ≡ self.packets }
        ensures form { result.form ≡ self.form }
        ensures fill { result.fill ≡ fill }
    {
        DecodeSettings { fill, ..self }
    }
}
