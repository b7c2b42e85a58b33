// The cases of W-204 that are to be run: two recordings held together, and the recordings of a log. They stand in the script, the file stdin, a case to a line; each prints a line with its name and the answer. The lines are
// held against the stored output, and the Rust model's tests hold the stored output against the model's own answers.

#![tactic(auto)]

use recordings::{Alone, Fault};
use refusals::Refusal;
use script::{Case, List, MARKER};
use std::io;

// Which recording is unsound.
fn told(rt: &impl Print, sound: Result<(), Fault>) -> io::Result<()> {
    match sound {
        Ok(()) => rt.write_all(b" sound"),
        Err(Fault::Wires) => rt.write_all(b" 18 wires"),
        Err(Fault::Cores) => rt.write_all(b" 18 cores"),
    }
}

// The first event without a partner.
fn found(rt: &impl Print, alone: Option<Alone>) -> io::Result<()> {
    match alone {
        None => rt.write_all(b", none"),
        Some(Alone::Activate(at)) => {
            rt.write_all(b", activate")?;
            script::spaced(rt, at)
        }
        Some(Alone::Response(at)) => {
            rt.write_all(b", answer")?;
            script::spaced(rt, at)
        }
    }
}

// Two recordings held together: whether they are sound, the first event without a partner, and the rest.
fn held<'a>(rt: &impl Print, wires: &'a [u32], cores: &'a [u32], delay: u8) -> io::Result<()> {
    told(rt, recordings::unsound(wires, cores, delay))?;
    found(rt, recordings::first_alone(wires, cores, delay))?;
    rt.write_all(b", rest")?;
    script::all_spaced(rt, recordings::unmatched(wires, cores, delay))?;
    rt.write_all(b"\n")
}

// A match of as many numbers of the two recordings: DELAY WIRES CORES.
fn matched(rt: &impl Print, wires: &List, cores: &List, own: &List) -> io::Result<()> {
    let delay = (own.get(0) % 256) as u8;
    let wires = wires.first(own.get(1) as usize);
    let cores = cores.first(own.get(2) as usize);
    held(rt, wires, cores, delay)
}

// A recording of as many numbers of the trace and of the log, with room for as many, and the whole slice on its line: START TRACE LOG ROOM.
fn recorded<F: FnOnce(&[u32], &[u32], u32, &mut [u32]) -> Result<usize, Refusal>>(
    rt: &impl Print,
    make: F,
    trace: &List,
    log: &List,
    own: &List,
) -> io::Result<()>
    requires { F.IsAlwaysCallable make }
{
    let mut out = [MARKER; 160];
    let most = (own.get(3) as usize).min(160);
    let answer = make(
        trace.first(own.get(1) as usize),
        log.first(own.get(2) as usize),
        own.get(0),
        &mut out[..most],
    );
    script::spaced(rt, refusals::status_of(answer))?;
    rt.write_all(b", count")?;
    script::spaced(rt, answer.unwrap_or(0))?;
    rt.write_all(b", out")?;
    script::all_spaced(rt, &out[..most])?;
    rt.write_all(b"\n")
}

// A case's name, and its answer.
// Kept: a letter picks the case and what it goes by: the script's format.
fn one_case(rt: &impl Print, case: &Case) -> io::Result<()> {
    let text = case.text;
    let line = case.line;
    let trace = script::numbers(text, line.trace);
    let log = script::numbers(text, line.log);
    case.name(rt)?;
    rt.write_all(b":")?;
    match line.letter {
        b'm' => matched(rt, &trace, &log, &case.own),
        b'w' => recorded(rt, recordings::wires_of, &trace, &log, &case.own),
        b'c' => recorded(rt, recordings::cores_of, &trace, &log, &case.own),
        _ => Ok(()),
    }
}

// Kept: the loop over the lines stands in each test program, since a function that is handed what to do with a case asks that it may be called, and no public function asks anything of its caller (README.md).
fn main(rt: HostRuntime) -> io::Result<()> {
    let mut buffer = [0u8; 65536];
    let count = script::read(&mut rt.stdin(), &mut buffer)?;
    let text = &buffer[..count];
    for line in script::lines(text) {
        if let Some(case) = script::case_of(text, line) {
            one_case(&rt, &case)?;
        }
    }
    Ok(())
}
