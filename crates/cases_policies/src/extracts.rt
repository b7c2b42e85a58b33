// Extracts: their statuses, counts and numbers.

use super::Case;
use policy::Policy;
use refusals::Refusal;
use script::{List, MARKER};
use std::io;

// What an extract answers, and the slice that it wrote.
#[derive(Clone, Copy)]
struct Extract {
    answer: Result<usize, Refusal>,
    out: List,
}

// Whom an extract is for: a class, or a set of classes with bit c for class c.
#[derive(Clone, Copy)]
pub(crate) enum Whose {
    Class(u32),
    Set(u32),
}

fn asked(
    p: Policy,
    whose: Whose,
    trace: &[u32],
    log: &[u32],
    out: &mut [u32],
) -> Result<usize, Refusal> {
    match whose {
        Whose::Class(class) => extract::extract(p, class, trace, log, out),
        Whose::Set(set) => extract::extract_set(p, set, trace, log, out),
    }
}

// An extract with room for 160 numbers or less.
fn extract_of(p: Policy, whose: Whose, trace: &[u32], log: &[u32], room: usize) -> Extract {
    let mut out = [MARKER; 160];
    let count = room.min(160);
    let answer = asked(p, whose, trace, log, &mut out[..count]);
    Extract {
        answer,
        out: List { at: out, count },
    }
}

// The status and the count of an extract.
// Kept: three lines, as in cases_recordings: `script` would rest on `refusals` for them.
fn answered(rt: &impl Print, answer: Result<usize, Refusal>) -> io::Result<()> {
    script::spaced(rt, refusals::status_of(answer))?;
    rt.write_all(b", count")?;
    script::spaced(rt, answer.unwrap_or(0))
}

// An extract for a class or a set, the first of the case's own numbers, of as many numbers of the trace and of the log, with room for as many, and the whole slice on its line:
// CLASS TRACE LOG ROOM.
pub(crate) fn sized(rt: &impl Print, c: &Case, whose: Whose) -> io::Result<()> {
    let own = c.script.own;
    let trace = c.trace.first(own.get(1) as usize);
    let log = c.log.first(own.get(2) as usize);
    let made = extract_of(c.policy, whose, trace, log, own.get(3) as usize);
    answered(rt, made.answer)?;
    rt.write_all(b", out")?;
    script::all_spaced(rt, made.out.first(made.out.count))?;
    rt.write_all(b"\n")
}

// What a class or a set may see of a log, by lines: CLASS.
pub(crate) fn seen(rt: &impl Print, c: &Case, whose: Whose, log: &List) -> io::Result<()> {
    let trace = c.trace.first(c.trace.count);
    let made = extract_of(c.policy, whose, trace, log.first(log.count), log.count);
    answered(rt, made.answer)?;
    rt.write_all(b"\n")?;
    c.script.rows(rt, made.out.first(made.out.count))
}

// The same of the log of a run from a fresh state.
pub(crate) fn seen_of_run(rt: &impl Print, c: &Case, whose: Whose) -> io::Result<()> {
    let fresh = state::fresh(c.policy);
    let mut log = List {
        at: [MARKER; 160],
        count: 160,
    };
    logs::run(
        c.policy,
        fresh.state,
        c.trace.first(c.trace.count),
        &mut log.at,
    );
    seen(rt, c, whose, &log)
}
