use crate::datagrams::datagrams;
use crate::lossy_wire::LossyWire;
use crate::numbers::{Each, Number};
use crate::setup::{Setup, Telling};
use crate::turn_log::TurnLog;
use link_program::{link_main, print_page};
use std::alloc::Global;
use std::thread::Threads;
use vc_ports::{Got, MemSink, MemSource, MemWire, Source, UntoldWire, Wire};
use vc_slice::{Hands, NoPlaces};
use worked_common::Bad;

/// What the program reads and writes in one run.
#[derive(Drop)]
pub(crate) struct Bench {
    input: MemSource,
    pub(crate) output: MemSink,
    pub(crate) report: MemSink,
    pub(crate) pace: TurnLog,
}

/// What a run came to.
#[derive(Drop)]
pub(crate) struct Ran {
    pub(crate) status: u8,
    /// How many bytes of the input weren't read.
    pub(crate) left: usize,
    /// Hands that give wrong answers gave some, and kept none.
    pub(crate) gave_back: bool,
    pub(crate) bench: Bench,
    pub(crate) wire: MemWire,
}

fn input(alloc: Global, setup: &Setup, number: Number) -> Result<MemSource, Bad> {
    let all = setup.input.as_slice();
    let length = number.bytes(Each::Cut).unwrap_or(all.len());
    let bytes = Vec::from_slice(alloc, all.get(..length).unwrap_or(all))?;
    Ok(MemSource::new(bytes, number.fails(alloc, Each::Read)?))
}

fn wire(alloc: Global, setup: &Setup, number: Number) -> Result<MemWire, Bad> {
    let coming = datagrams(alloc, setup.comes.as_slice())?;
    let calls = number.fails(alloc, Each::Wire)?;
    Ok(MemWire::new(alloc, coming, setup.looped, setup.room, calls)?)
}

// A sink with so much room, for calls of this kind.
fn sink(alloc: Global, room: usize, number: Number, each: Each) -> Result<MemSink, Bad> {
    Ok(MemSink::new(alloc, room, number.fails(alloc, each)?)?)
}

impl Bench {
    fn new(alloc: Global, setup: &Setup, number: Number) -> Result<Bench, Bad> {
        let room = number.bytes(Each::Room).unwrap_or(setup.room);
        Ok(Bench {
            input: input(alloc, setup, number)?,
            output: sink(alloc, room, number, Each::Write)?,
            report: sink(alloc, 2_000, number, Each::Report)?,
            pace: TurnLog::new(alloc)?,
        })
    }

    // Runs the program over a wire, and answers its status.
    fn run<H: Threads + Copy + Send + Sync, N: Wire, P: Hands>(
        &mut self,
        rt: H,
        alloc: Global,
        setup: &Setup,
        wire: &mut N,
        hands: &mut P,
    ) -> u8
        requires { P.is_free hands.old }
    {
        if let Some(status) = print_page(alloc, &setup.words, &mut self.output) {
            return status;
        }
        link_main(
            rt,
            alloc,
            &setup.words,
            &mut self.input,
            &mut self.output,
            &mut self.report,
            wire,
            &mut self.pace,
            None,
            hands,
        )
    }

    fn ran(mut self, setup: &Setup, status: u8, wire: MemWire) -> Ran {
        Ran {
            status,
            left: self.left(setup.input.len()),
            gave_back: true,
            bench: self,
            wire,
        }
    }

    // How many bytes of the input are left, of which there are no more than that. They are read.
    fn left(&mut self, most: usize) -> usize {
        let mut left = 0usize;
        let mut piece = [0u8; 256];
        for _ in 0..=most.saturating_add(1) {
            match self.input.read(&mut piece) {
                Got::Bytes(count) => left = left.saturating_add(count),
                // The call that is to fail was still to come.
                Got::Failed => {}
                Got::End => break,
            }
        }
        left
    }
}

/// Runs the program on a setup, at a number, with these hands.
pub(crate) fn run_with<H: Threads + Copy + Send + Sync, P: Hands>(
    rt: H,
    alloc: Global,
    setup: &Setup,
    number: Number,
    hands: &mut P,
) -> Result<Ran, Bad>
    requires { P.is_free hands.old }
{
    let mut bench = Bench::new(alloc, setup, number)?;
    let mut wire = wire(alloc, setup, number)?;
    let status = bench.run(rt, alloc, setup, &mut wire, hands);
    Ok(bench.ran(setup, status, wire))
}

/// Runs the program on a setup, at a number, without hands, over a wire that tells what the setup says.
pub(crate) fn run_alone<H: Threads + Copy + Send + Sync>(
    rt: H,
    alloc: Global,
    setup: &Setup,
    number: Number,
) -> Result<Ran, Bad> {
    let mut bench = Bench::new(alloc, setup, number)?;
    let inner = wire(alloc, setup, number)?;
    match setup.telling {
        Telling::All => {
            let mut wire = inner;
            let status = bench.run(rt, alloc, setup, &mut wire, &mut NoPlaces);
            Ok(bench.ran(setup, status, wire))
        }
        Telling::Nothing => {
            let mut wire = UntoldWire { inner };
            let status = bench.run(rt, alloc, setup, &mut wire, &mut NoPlaces);
            Ok(bench.ran(setup, status, wire.inner))
        }
        Telling::NothingLost => {
            let mut wire = LossyWire::new(inner);
            let status = bench.run(rt, alloc, setup, &mut wire, &mut NoPlaces);
            Ok(bench.ran(setup, status, wire.into_inner()))
        }
    }
}
