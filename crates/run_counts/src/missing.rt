/// How many ranges of missing frames are kept.
pub const MOST_GAPS: usize = 100;

// So many frames in a row are filled where gaps are, and none where more are missing.
const MOST_FILLED: u64 = 250;

/// Frames between two that were written, which weren't: the numbers of the first and the last of them.
#[derive(Clone, Copy)]
pub struct Gap {
    pub first: u32,
    pub last: u32,
}

/// Which frames weren't written between the first and the last that were, session by session. A frame has the
/// number of its picture or, with field coding, half that of its first field.
#[derive(Clone, Copy)]
pub struct MissingFrames {
    gaps: [Gap; MOST_GAPS],
    count: usize,
    has_more: bool,
    // How many frames were written, and how many are missing in gaps that are filled.
    written: u64,
    filled: u64,
    // The number that the frame has that follows the last one that was written in the session.
    next: Option<u64>,
}

impl MissingFrames {
    /// No frame was written.
    pub fn new() -> MissingFrames {
        MissingFrames {
            gaps: [Gap { first: 0, last: 0 }; MOST_GAPS],
            count: 0,
            has_more: false,
            written: 0,
            filled: 0,
            next: None,
        }
    }

    /// Those in ascending order, at most 100.
    pub fn gaps(&self) -> &[Gap] {
        self.gaps.get(..self.count).unwrap_or(&[])
    }

    /// How many frames are missing of which at most 250 are in a row: where gaps are filled, another is written
    /// in the place of each.
    pub fn filled(&self) -> u64 {
        self.filled
    }

    /// Whether there are more than are kept.
    pub fn has_more(&self) -> bool {
        self.has_more
    }

    /// A session opens: its frames have numbers of their own.
    pub fn open_session(&mut self) {
        self.next = None;
    }

    /// A picture was released, and so many frames are written in all. If they are more than before, one went
    /// out, of which it is the last picture.
    pub fn release(&mut self, frames: u64, picture: u64, has_fields: bool) {
        if frames > self.written {
            self.written = frames;
            self.write(picture, has_fields);
        }
    }

    /// A frame was written, whose last picture has this number. Pictures are counted on beyond the 32 bits of
    /// their number, and half as many frames with field coding.
    pub fn write(&mut self, picture: u64, has_fields: bool) {
        let (number, bits) = if has_fields {
            (picture / 2, 31)
        } else {
            (picture, 32)
        };
        if let Some(next) = self.next {
            if next < number {
                let missing = number - next;
                if missing <= MOST_FILLED {
                    self.filled = self.filled.saturating_add(missing);
                }
                self.keep(Gap {
                    first: (next % (1 << bits)) as u32,
                    last: ((number - 1) % (1 << bits)) as u32,
                });
            }
        }
        self.next = Some(number.saturating_add(1));
    }

    fn keep(&mut self, gap: Gap) {
        match self.gaps.get_mut(self.count) {
            Some(place) => {
                *place = gap;
                self.count = self.count.saturating_add(1);
            }
            None => self.has_more = true,
        }
    }
}
