// The cases of W-208 that are to be run: every small order by its place, what is refused, and a policy written as a file. They stand in the script, the file stdin, a case to a line; each prints a line with its name
// and the answer. The lines are held against the stored output, and the Rust model's tests hold the stored output against the model's own answers.

#![tactic(auto)]

use orders::Fetched;
use policy::Policy;
use script::{Case, List};
use std::io;

// What stands in a slice before a call writes into it.
const MARKER: u8 = 99;

// The order that a line names: N PLACE SIZE, with so many bytes of the timing.
fn fetched(timing: &List, own: &List) -> Fetched {
    let bytes = timing.bytes::<96>();
    let size = (own.get(2) as usize).min(96);
    orders::fetch(own.get(0), own.get(1), &bytes[..size])
}

// An order: the status, and of its policy's numbers the classes, the rows, the turns and a few of the timing. A file case shows them all.
fn order(rt: &impl Print, timing: &List, own: &List) -> io::Result<()> {
    let answer = fetched(timing, own);
    let p = answer.policy;
    let t = p.timing;
    script::spaced(rt, answer.status)?;
    rt.write_all(b", classes")?;
    script::spaced(rt, p.classes)?;
    rt.write_all(b", rows")?;
    script::all_spaced(rt, &p.rows)?;
    rt.write_all(b", E")?;
    script::spaced(rt, p.epoch)?;
    rt.write_all(b", minimums")?;
    script::all_spaced(rt, &p.minimums)?;
    rt.write_all(b", caps")?;
    script::all_spaced(rt, &p.caps)?;
    rt.write_all(b", turn")?;
    script::spaced(rt, t.turn)?;
    rt.write_all(b", ranks")?;
    script::spaced(rt, t.ranks)?;
    rt.write_all(b", gap")?;
    script::spaced(rt, t.rank)?;
    rt.write_all(b"\n")
}

// A policy written as a file, with room for so many bytes, and the whole slice.
fn written(rt: &impl Print, p: Policy, room: usize) -> io::Result<()> {
    let mut out = [MARKER; 96];
    let most = room.min(96);
    let answer = writer::write(p, &mut out[..most]);
    script::spaced(rt, refusals::status_of(answer))?;
    rt.write_all(b", size")?;
    script::spaced(rt, answer.unwrap_or(0))?;
    rt.write_all(b", file")?;
    script::all_spaced(rt, &out[..most])?;
    rt.write_all(b"\n")
}

// The policy of an order, written: N PLACE SIZE ROOM.
fn file(rt: &impl Print, timing: &List, own: &List) -> io::Result<()> {
    let answer = fetched(timing, own);
    written(rt, answer.policy, own.get(3) as usize)
}

// The policy that a file holds, written again: ROOM.
fn again(rt: &impl Print, held: &List, own: &List) -> io::Result<()> {
    let bytes = held.bytes::<96>();
    let reading = file::read(&bytes[..held.count.min(96)]);
    script::spaced(rt, reading.status)?;
    rt.write_all(b",")?;
    written(rt, reading.policy, own.get(0) as usize)
}

// A case's name, and its answer.
// Kept: a letter picks the case and what it goes by: the script's format.
fn one_case(rt: &impl Print, case: &Case) -> io::Result<()> {
    let text = case.text;
    let line = case.line;
    let timing = script::numbers(text, line.trace);
    let held = script::numbers(text, line.file);
    case.name(rt)?;
    rt.write_all(b":")?;
    match line.letter {
        b'o' => order(rt, &timing, &case.own),
        b'f' => file(rt, &timing, &case.own),
        b'a' => again(rt, &held, &case.own),
        _ => Ok(()),
    }
}

// Kept: the loop over the lines stands in each test program, since a function that is handed what to do with a case asks that it may be called, and no public function asks anything of its caller (README.md).
fn main(rt: HostRuntime) -> io::Result<()> {
    let mut buffer = [0u8; 65536];
    let count = script::read(&mut rt.stdin(), &mut buffer)?;
    let text = &buffer[..count];
    for line in script::lines(text) {
        if let Some(case) = script::case_of(text, line) {
            one_case(&rt, &case)?;
        }
    }
    Ok(())
}
