use crate::filled::FilledFrames;
use crate::stream::StreamOutput;

/// What a receiver writes, and what it keeps of what it wrote.
#[derive(Drop)]
pub enum Written {
    /// Raw frames.
    Frames,
    /// Raw frames, of which one is written once more for each that is missing behind it.
    Filled(FilledFrames),
    /// The units of an elementary stream.
    Units(StreamOutput),
}
