// Two new cards, and a list of calls made on both.
use application::Application;
use fares::FareCounter;
use pair::{Call, CommandCall, Done, Pair};
use records::RecordFile;
use script::{Kept, Seals, Section, Setup, Step};
use sealer::{BenchSealer, RealSealer};
use sealing::Sealer;
use std::alloc::{AllocError, Global};

// What a host's memory holds before a call.
pub const FILL: u8 = 0xA5;

// What both cards did, call by call. Not `pair::Ran`, which has a type of its own for each two applications.
#[derive(Drop)]
pub struct Answers {
    pub left: Vec<Done>,
    pub right: Vec<Done>,
}

// The call of a step. Both types are other crates', so there is no `From` between them.
fn call_of(step: &Step) -> Call<'_> {
    match step {
        Step::Load(text) => Call::Load(text.as_slice()),
        Step::On => Call::PowerOn,
        Step::Off => Call::PowerOff,
        Step::Command(line) => Call::Command(CommandCall {
            apdu: line.apdu.as_slice(),
            random: line.random.as_slice(),
            buffer: line.buffer,
            work: line.work,
        }),
    }
}

// Runs the calls on two new cards with these applications.
fn run<S: Sealer + Copy + Drop, L: Application + Drop, R: Application + Drop>(
    heap: Global,
    sealer: S,
    left: L,
    right: R,
    required: bool,
    calls: &[Call<'_>],
) -> Result<Answers, AllocError> {
    let pair = Pair::new(sealer, sealer, left, right, required);
    let ran = pair::run(pair, calls, FILL, heap)?;
    Ok(Answers {
        left: ran.left,
        right: ran.right,
    })
}

// The same, with the applications by their names. Each pair of them has a type of its own, and so an arm.
fn run_with<S: Sealer + Copy + Drop>(
    heap: Global,
    sealer: S,
    setup: Setup,
    calls: &[Call<'_>],
) -> Result<Answers, AllocError> {
    let required = setup.required;
    let fares = FareCounter::new();
    let records = RecordFile::new();
    match (setup.left, setup.right) {
        (Kept::Fares, Kept::Fares) => run(heap, sealer, fares, fares, required, calls),
        (Kept::Fares, Kept::Records) => run(heap, sealer, fares, records, required, calls),
        (Kept::Records, Kept::Fares) => run(heap, sealer, records, fares, required, calls),
        (Kept::Records, Kept::Records) => run(heap, sealer, records, records, required, calls),
    }
}

// Runs a section of a script.
pub fn run_section(heap: Global, section: &Section) -> Result<Answers, AllocError> {
    let calls: Vec<Call<'_>> = section.steps.iter().map(call_of).collect(heap)?;
    match section.setup.seals {
        Seals::Real => run_with(heap, RealSealer, section.setup, calls.as_slice()),
        Seals::Bench => run_with(heap, BenchSealer, section.setup, calls.as_slice()),
    }
}
