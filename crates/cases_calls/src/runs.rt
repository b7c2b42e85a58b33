// Lists of calls made singly, and runs: their statuses, logs and states; a run cut in two at every place, and one made by single calls.

use super::{Case, singles};
use policy::Policy;
use script::{List, MARKER};
use state::State;
use std::io;

// What a run answers, and its log.
// Kept: a number and a state, as `logs::run` answers them.
#[derive(Clone, Copy)]
struct Run {
    status: u32,
    state: State,
    log: List,
}

// A run over a trace from a place of it on, into a log of so many numbers, 160 or less.
fn run_of(p: Policy, s: State, trace: &List, from: usize, room: usize) -> Run {
    let mut log = [MARKER; 160];
    let count = room.min(160);
    let numbers = trace.at.get(from..trace.count).unwrap_or(&trace.at[..]);
    let made = logs::run(p, s, numbers, &mut log[..count]);
    Run {
        status: made.status,
        state: made.state,
        log: List { at: log, count },
    }
}

// The state after the calls of a trace, from a policy's fresh state.
pub(crate) fn state_of(p: Policy, trace: &List) -> State {
    let fresh = state::fresh(p);
    run_of(p, fresh.state, trace, 0, 160).state
}

// A run's status, and whether the state is as it was.
fn ran(rt: &impl Print, before: &State, made: &Run) -> io::Result<()> {
    script::spaced(rt, made.status)?;
    singles::stands(rt, before, &made.state)
}

// A log by lines, four numbers to a line.
fn rows(rt: &impl Print, c: &Case, log: &List) -> io::Result<()> {
    c.script.rows(rt, log.first(log.count))
}

// A run, and its log by lines.
pub(crate) fn list(rt: &impl Print, c: &Case) -> io::Result<()> {
    let made = run_of(c.policy, c.state, &c.trace, 0, 4 * c.trace.count.min(40));
    ran(rt, &c.state, &made)?;
    rt.write_all(b"\n")?;
    rows(rt, c, &made.log)
}

// A run over as many numbers of the trace, with a log of as many, and its whole log on its line: TRACE LOG.
pub(crate) fn whole(rt: &impl Print, c: &Case) -> io::Result<()> {
    let mut trace = c.trace;
    trace.count = c.script.own.get(0) as usize;
    let made = run_of(c.policy, c.state, &trace, 0, c.script.own.get(1) as usize);
    ran(rt, &c.state, &made)?;
    rt.write_all(b", log")?;
    script::all_spaced(rt, made.log.first(made.log.count))?;
    rt.write_all(b"\n")
}

// A run over 40 numbers in one piece, its status and its log by lines.
pub(crate) fn plain(rt: &impl Print, c: &Case) -> io::Result<()> {
    let one = run_of(c.policy, c.state, &c.trace, 0, 160);
    script::spaced(rt, one.status)?;
    rt.write_all(b"\n")?;
    rows(rt, c, &one.log)
}

// Whether the numbers of a list stand in another, from a place of it on.
fn stands_in(list: &List, all: &List, from: usize) -> bool {
    all.at[from.min(160)..].starts_with(list.first(list.count))
}

// Whether two ways to make the same calls lead to one state and one log.
fn agree(rt: &impl Print, same: bool) -> io::Result<()> {
    if same {
        rt.write_all(b" the same state, the same log\n")
    } else {
        rt.write_all(b" another state or another log\n")
    }
}

// Two runs that meet at a place, beside the run in one piece: PLACE.
pub(crate) fn halves(rt: &impl Print, c: &Case) -> io::Result<()> {
    let place = (c.script.own.get(0) as usize).min(40);
    let written = 4 * place;
    let mut start = c.trace;
    start.count = place;
    let first = run_of(c.policy, c.state, &start, 0, written);
    let second = run_of(c.policy, first.state, &c.trace, place, 160 - written);
    let one = run_of(c.policy, c.state, &c.trace, 0, 160);
    agree(
        rt,
        (one.state == second.state)
            & stands_in(&first.log, &one.log, 0)
            & stands_in(&second.log, &one.log, written),
    )
}

// The calls of a trace one after the other, with a line for each if they are to be shown, and what a run over them is to answer.
// Kept: a flag and no function that shows a line: one of its two callers would hand in one that does nothing.
fn singly(rt: &impl Print, c: &Case, shown: bool) -> io::Result<Run> {
    let mut log = List {
        at: [MARKER; 160],
        count: 0,
    };
    let mut state = c.state;
    for (at, word) in c.trace.first(c.trace.count).iter().enumerate() {
        let made = singles::call_of(c.policy, state, *word);
        if shown {
            c.script.label(rt, at)?;
            singles::show(rt, &state, &made)?;
        }
        for number in &made.log {
            log.push(*number);
        }
        state = made.state;
    }
    Ok(Run {
        status: 0,
        state,
        log,
    })
}

// The single calls, each with its line.
pub(crate) fn single(rt: &impl Print, c: &Case) -> io::Result<()> {
    singly(rt, c, true)?;
    Ok(())
}

// The single calls, beside the run in one piece.
pub(crate) fn unshown(rt: &impl Print, c: &Case) -> io::Result<()> {
    let one = run_of(c.policy, c.state, &c.trace, 0, 160);
    let made = singly(rt, c, false)?;
    agree(
        rt,
        (one.state == made.state)
            & (made.log.count == one.log.count)
            & stands_in(&made.log, &one.log, 0),
    )
}
