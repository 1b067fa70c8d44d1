//! Rows of wires in memory.
ghost use Rattle.std.specs.Prelude.{◌≡◌, ◌≤◌, IfOk, IsTrue, OnOk, length};
ghost use Rattle.vc_ports.specs.MemoryWires.{AreDatagrams, datagrams_in};

use crate::ports::{add_front, fails};
use crate::said::Said;
use crate::words::{bytes_of, natural, parted};
use std::alloc::Global;
use vc_ports::{Came, MemWire, PlainWire, Reached, Sent, Wire};
use worked_common::{Bad, NamedBytes};

fn listen<N: Wire>(wire: &mut N) -> bool
    ensures { IsTrue result → IsTrue (N.told wire.new).listens }
{
    match wire.listen("here") {
        Reached::Yes => true,
        Reached::Failed => false,
    }
}

fn aim<N: Wire>(wire: &mut N) -> bool
    requires { IsTrue (N.told wire.old).listens }
    ensures { IsTrue result
        → IsTrue (N.told wire.new).listens × IsTrue (N.told wire.new).aimed }
{
    match wire.aim("there") {
        Reached::Yes => true,
        Reached::Failed => false,
    }
}

fn add_sent<N: Wire>(wire: &mut N, datagram: &[u8], said: &mut Said) -> Result<(), Bad>
    requires { IsTrue (N.told wire.old).listens × IsTrue (N.told wire.old).aimed }
    ensures { OnOk result (IsTrue (N.told wire.new).listens) }
{
    if datagram.len() > 65507 {
        return Err(Bad::NoRow);
    }
    match wire.send(datagram) {
        Sent::Yes | Sent::Lost => said.word("sent"),
        Sent::Failed => said.word("failed"),
    }
    Ok(())
}

// A buffer that has room for any datagram.
fn buffer(alloc: Global) -> Result<Vec<u8>, Bad>
    ensures { IfOk result (λ buffer. length buffer.items ≡ 65535) }
{
    let buffer = vec![in alloc; 9u8; 65535]?;
    Ok(buffer)
}

fn add_came(buffer: &[u8], count: usize, said: &mut Said) -> Result<(), Bad> {
    said.word("came");
    add_front(buffer, count, said)
}

fn add_received<N: Wire>(wire: &mut N, said: &mut Said) -> Result<(), Bad>
    requires { IsTrue (N.told wire.old).listens }
    ensures { OnOk result (IsTrue (N.told wire.new).listens) }
{
    let mut buffer = buffer(said.alloc())?;
    match wire.recv(buffer.as_mut_slice()) {
        Came::Datagram(count) => return add_came(buffer.as_slice(), count, said),
        Came::End => said.word("end"),
        Came::Failed => said.word("failed"),
    }
    Ok(())
}

// Opens a wire, sends one datagram over it, and receives thrice.
fn exchange<N: Wire>(wire: &mut N, datagram: &[u8], said: &mut Said) -> Result<(), Bad> {
    if !listen(wire) {
        said.word("doesn't-listen");
        return Ok(());
    }
    if !aim(wire) {
        said.word("isn't-aimed");
        return Ok(());
    }
    add_sent(wire, datagram, said)?;
    add_received(wire, said)?;
    add_received(wire, said)?;
    add_received(wire, said)
}

fn add_datagram(all: &mut Vec<Vec<u8>>, one: Vec<u8>) -> Result<(), Bad>
    requires { AreDatagrams (datagrams_in all.old.items) }
    ensures { AreDatagrams (datagrams_in all.new.items) }
{
    if one.len() > 65535 {
        return Err(Bad::NoRow);
    }
    all.push(one)?;
    Ok(())
}

// Datagrams with a stroke between each two.
fn datagrams(alloc: Global, parts: &[NamedBytes], text: &str) -> Result<Vec<Vec<u8>>, Bad>
    ensures { IfOk result (λ all. AreDatagrams (datagrams_in all.items)) }
{
    let mut all = Vec::new(alloc);
    if text.trim().is_empty() {
        return Ok(all);
    }
    for one in text.split('/') {
        add_datagram(&mut all, bytes_of(alloc, parts, one)?)?;
    }
    Ok(all)
}

// A wire that has room for so many bytes and may be looped, whose calls of these numbers fail, and from
// which these datagrams come.
fn memory(alloc: Global, parts: &[NamedBytes], front: &str, coming: &str) -> Result<MemWire, Bad> {
    let mut words = front.split_whitespace();
    let room = natural(words.next().unwrap_or(""))? as usize;
    let looped = words.next() == Some("looped");
    let numbers = fails(alloc, words.next().unwrap_or(""))?;
    let coming = datagrams(alloc, parts, coming)?;
    Ok(MemWire::new(alloc, coming, looped, room, numbers)?)
}

// Adds what is kept at the first place of a list, if there is anything.
fn add_kept(what: &str, kept: Option<&[u8]>, said: &mut Said) {
    if let Some(bytes) = kept {
        said.word(what);
        said.bytes(bytes);
    }
}

// Adds where the wire listened and sent to at first, and the first two datagrams sent.
fn add_all_kept(wire: &MemWire, said: &mut Said) {
    add_kept("at", wire.at(0), said);
    add_kept("to", wire.to(0), said);
    add_kept("kept", wire.sent(0), said);
    add_kept("more", wire.sent(1), said);
}

fn exchange_and_keep(wire: &mut MemWire, datagram: &[u8], said: &mut Said) -> Result<(), Bad> {
    exchange(wire, datagram, said)?;
    add_all_kept(wire, said);
    Ok(())
}

/// What an exchange over a wire in memory comes to, and what the wire keeps of it.
pub(crate) fn memory_wire(parts: &[NamedBytes], given: &str, said: &mut Said) -> Result<(), Bad> {
    let (front, rest) = parted(given);
    let (coming, sent) = parted(rest);
    let sent = bytes_of(said.alloc(), parts, sent)?;
    let mut wire = memory(said.alloc(), parts, front, coming)?;
    exchange_and_keep(&mut wire, sent.as_slice(), said)
}

/// What an exchange over a wire that never fails comes to.
pub(crate) fn plain_wire(parts: &[NamedBytes], given: &str, said: &mut Said) -> Result<(), Bad> {
    let (coming, sent) = parted(given);
    let sent = bytes_of(said.alloc(), parts, sent)?;
    let mut wire = PlainWire::new(datagrams(said.alloc(), parts, coming)?);
    exchange(&mut wire, sent.as_slice(), said)
}
