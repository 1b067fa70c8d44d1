use std::alloc::Global;
use vc_ports::{Pace, Turn};
use vc_types::NoMemory;

// So many turns are kept.
const MOST: usize = 1_000;

/// A pace at which everything goes at once. It keeps the turns that it was told, one after another.
#[derive(Drop)]
pub(crate) struct TurnLog {
    turns: Vec<Turn>,
}

impl Pace for TurnLog {
    fn wait(&mut self, turn: &Turn) {
        if self.turns.len() < MOST {
            // Without memory the row differs.
            let _ = self.turns.push(*turn);
        }
    }
}

// The turns of a picture's datagrams, as `3600+3600*4`: its timestamp, its ticks, and how many they are.
fn first_turn(text: &str) -> Option<Turn> {
    let (timestamp, rest) = text.split_once('+')?;
    let (ticks, count) = rest.split_once('*')?;
    Some(Turn {
        timestamp: timestamp.parse::<u32>().ok()?,
        ticks: ticks.parse::<u32>().ok()?,
        before: 0,
        count: count.parse::<usize>().ok()?,
    })
}

impl TurnLog {
    pub(crate) fn new(alloc: Global) -> Result<TurnLog, NoMemory> {
        Ok(TurnLog {
            turns: Vec::with_capacity(alloc, MOST)?,
        })
    }

    /// Whether these are the turns, as `0+3600*4 3600+3600*4`.
    pub(crate) fn are(&self, text: &str) -> bool {
        let mut place = 0usize;
        for picture in text.split_whitespace() {
            let Some(first) = first_turn(picture) else {
                return false;
            };
            for before in 0..first.count {
                if self.turns.get(place) != Some(&Turn { before, ..first }) {
                    return false;
                }
                place = place.saturating_add(1);
            }
        }
        place == self.turns.len()
    }
}
