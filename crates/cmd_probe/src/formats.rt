ghost use Rattle.std.specs.Prelude.{◌≡◌, ◌++◌, OnOk};
ghost use Rattle.vc_types.specs.SequenceHeader.{sequence_of};
ghost use Rattle.vc_types.specs.TransformParameters.{parameters_of};
ghost use Rattle.cmd_probe.specs.Said.{nothing_said, with_header, with_line, with_new_line};
ghost use Rattle.cmd_probe.specs.Said.{with_sequence, with_transform};

use crate::header_line::header_line;
use crate::heading::Heading;
use crate::line::Line;
use crate::transform_line::transform_line;
use std::alloc::Global;
use vc_seqhdr::read_whole_header_of;
use vc_types::{HIGH_QUALITY_PROFILE, Header, NoMemory, Plan};

// So many lines are kept.
const MOST_LINES: u8 = 16;

/// What the headers and transform parameters of a source say: a line each time that they change.
#[derive(Drop)]
pub(crate) struct Formats {
    pub(crate) heading: Heading,
    /// The line of the last header, and that of the last transform parameters.
    pub(crate) header: Line,
    pub(crate) transform: Line,
    /// All lines, and how many there are.
    pub(crate) text: Line,
    pub(crate) lines: u8,
}

impl Formats {
    /// Before anything was said.
    pub(crate) fn new(alloc: Global) -> Formats
        ensures { result ≡ nothing_said }
    {
        Formats {
            heading: Heading::none(),
            header: Line::empty(alloc),
            transform: Line::empty(alloc),
            text: Line::empty(alloc),
            lines: 0,
        }
    }

    /// Takes a coded sequence header, if it is accepted.
    #[tactic(auto, unfolding(crate::specs::Said::with_header))]
    pub(crate) fn take_header(&mut self, alloc: Global, bytes: &[u8]) -> Result<(), NoMemory>
        ensures { OnOk result (self.new ≡ with_header self.old bytes.now) }
    {
        match read_whole_header_of(HIGH_QUALITY_PROFILE, bytes) {
            Ok(whole) => {
                let line = header_line(alloc, &whole)?;
                self.say_header(whole.header, line)
            }
            Err(_) => Ok(()),
        }
    }

    // Takes a header and its line.
    fn say_header(&mut self, header: Header, line: Line) -> Result<(), NoMemory>
        ensures { OnOk result (self.new ≡ with_sequence self.old (sequence_of header) line) }
    {
        let is_new = line.as_str() != self.header.as_str();
        self.push_if(is_new, line.as_str())?;
        self.heading = Heading::of(header);
        self.header = line;
        Ok(())
    }

    /// Takes transform parameters.
    #[tactic(auto, unfolding(crate::specs::Said::with_transform))]
    pub(crate) fn take_transform(&mut self, alloc: Global, plan: &Plan) -> Result<(), NoMemory>
        ensures { OnOk result (self.new ≡ with_transform self.old (parameters_of plan.now)) }
    {
        let line = transform_line(alloc, plan)?;
        let is_new = line.as_str() != self.transform.as_str();
        self.push_if(is_new, line.as_str())?;
        self.transform = line;
        Ok(())
    }

    // Keeps a line more, if it is new.
    fn push_if(&mut self, is_new: bool, line: &str) -> Result<(), NoMemory>
        ensures { OnOk result (self.new ≡ with_new_line self.old is_new line.now) }
    {
        if is_new { self.push(line) } else { Ok(()) }
    }

    // Keeps a line more, or says that there are more.
    #[tactic(auto, unfolding(crate::specs::Said::with_line))]
    fn push(&mut self, line: &str) -> Result<(), NoMemory>
        ensures { OnOk result (self.new ≡ with_line self.old line.now) }
    {
        if self.lines < MOST_LINES {
            self.text.append(line)?;
            self.lines += 1;
        } else if self.lines == MOST_LINES {
            self.text.append("more\n")?;
            self.lines += 1;
        }
        Ok(())
    }
}
