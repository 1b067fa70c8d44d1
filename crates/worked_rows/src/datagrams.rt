ghost use Rattle.std.specs.Prelude.{◌≤◌, length, IfOk};
ghost use Rattle.vc_ports.specs.MemoryWires.{AreDatagrams, datagrams_in};

use std::alloc::Global;
use vc_ports::MemWire;
use vc_types::Words;
use worked_common::{Bad, split_entry};

fn add(all: &mut Vec<Vec<u8>>, one: Vec<u8>) -> Result<(), Bad>
    requires old { AreDatagrams (datagrams_in all.old.items) }
    requires one { length one.items ≤ 65535 }
    ensures { AreDatagrams (datagrams_in all.new.items) }
{
    all.push(one)?;
    Ok(())
}

/// The datagrams of entries, each of which has its length in two bytes before it.
pub(crate) fn datagrams(alloc: Global, entries: &[u8]) -> Result<Vec<Vec<u8>>, Bad>
    ensures { IfOk result (λ all. AreDatagrams (datagrams_in all.items)) }
{
    let mut all = Vec::new(alloc);
    let mut rest = entries;
    for _ in 0..entries.len() {
        let Some((one, more)) = split_entry(rest) else {
            break;
        };
        add(&mut all, Vec::from_slice(alloc, one)?)?;
        rest = more;
    }
    if rest.is_empty() {
        return Ok(all);
    }
    Err(Bad::NoRow)
}

/// Whether these were sent, as entries, and nothing else.
pub(crate) fn are_sent(wire: &MemWire, entries: &[u8]) -> bool {
    let mut rest = entries;
    for place in 0..=entries.len() {
        let Some((one, more)) = split_entry(rest) else {
            return rest.is_empty() && wire.sent(place).is_none();
        };
        if wire.sent(place) != Some(one) {
            return false;
        }
        rest = more;
    }
    false
}

/// Whether the wire was asked to listen at these addresses, one after another, and at no others.
pub(crate) fn listens_at(wire: &MemWire, addresses: &Words) -> bool {
    for place in 0..addresses.len() {
        if wire.at(place) != Some(addresses.word(place).as_bytes()) {
            return false;
        }
    }
    wire.at(addresses.len()).is_none()
}

/// Whether the wire was asked to send to these addresses, one after another, and to no others.
pub(crate) fn sends_to(wire: &MemWire, addresses: &Words) -> bool {
    for place in 0..addresses.len() {
        if wire.to(place) != Some(addresses.word(place).as_bytes()) {
            return false;
        }
    }
    wire.to(addresses.len()).is_none()
}
