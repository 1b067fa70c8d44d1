use crate::hands::Kind;
use crate::names::Names;
use std::alloc::Global;
use vc_types::Words;
use worked_common::{Bad, put};

/// What the wire tells.
#[derive(Clone, Copy, Drop)]
pub(crate) enum Telling {
    All,
    Nothing,
    /// Nothing, and a datagram that fails to be sent is lost.
    NothingLost,
}

/// What the program is run on.
#[derive(Drop)]
pub(crate) struct Setup {
    pub(crate) words: Words,
    pub(crate) input: Vec<u8>,
    /// What comes from the wire, as entries.
    pub(crate) comes: Vec<u8>,
    /// Whether what is sent comes back.
    pub(crate) looped: bool,
    pub(crate) telling: Telling,
    /// How many bytes there may be of the output.
    pub(crate) room: usize,
    pub(crate) hands: Kind,
}

// The word that a line has so: between its spaces the empty one is written "".
fn word_of(text: &str) -> &str {
    if text == "\"\"" { "" } else { text }
}

impl Setup {
    pub(crate) fn new(alloc: Global) -> Setup {
        Setup {
            words: Words::new(alloc),
            input: Vec::new(alloc),
            comes: Vec::new(alloc),
            looped: false,
            telling: Telling::All,
            room: 20_000,
            hands: Kind::NoHands,
        }
    }

    pub(crate) fn set_words(&mut self, alloc: Global, text: &str) -> Result<(), Bad> {
        self.words = Words::new(alloc);
        for word in text.split_whitespace() {
            self.words.push(word_of(word))?;
        }
        Ok(())
    }

    pub(crate) fn set_input(
        &mut self,
        alloc: Global,
        names: &Names,
        text: &str,
    ) -> Result<(), Bad> {
        self.input.clear();
        put(alloc, names.parts.as_slice(), text, &mut self.input)
    }

    pub(crate) fn set_coming(
        &mut self,
        alloc: Global,
        names: &Names,
        text: &str,
    ) -> Result<(), Bad> {
        self.comes.clear();
        put(alloc, names.parts.as_slice(), text, &mut self.comes)
    }

    pub(crate) fn set_room(&mut self, text: &str) -> Result<(), Bad> {
        let Ok(room) = text.parse::<usize>() else {
            return Err(Bad::NoRow);
        };
        self.room = room;
        Ok(())
    }

    pub(crate) fn set_hands(&mut self, text: &str) -> Result<(), Bad> {
        self.hands = Kind::parse(text)?;
        Ok(())
    }
}
