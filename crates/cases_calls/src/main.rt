// The cases that document 01 says are to be run, of what goes by a state: offers, ticks and fresh states, lists of calls, and runs. They stand in the script, the file
// stdin, a case to a line; each prints a line or more with its name and the answer. The lines are held against the stored output, and the Rust model's tests hold the
// stored output against the model's own answers.

#![tactic(auto)]

use policy::Policy;
use script::List;
use state::State;
use std::io;

mod change;
mod runs;
mod singles;

// A case, and what it goes by: the numbers of the trace, and its policy and state.
#[derive(Clone, Copy)]
pub(crate) struct Case<'a> {
    pub script: script::Case<'a>,
    pub trace: List,
    pub policy: Policy,
    pub state: State,
}

// How many numbers of a line stand before its changes.
fn own_numbers(letter: u8) -> usize {
    match letter {
        b'o' => 5,
        b'a' => 2,
        b'h' => 1,
        _ => 0,
    }
}

// A case with what it goes by.
fn laid_out<'a>(case: &script::Case<'a>) -> Case<'a> {
    let text = case.text;
    let line = case.line;
    let given = change::policy_of(&script::numbers(text, line.file));
    let at_start = runs::state_of(given, &script::numbers(text, line.state));
    let (policy, state) = change::changed(given, at_start, &case.own, own_numbers(line.letter));
    Case {
        script: *case,
        trace: script::numbers(text, line.trace),
        policy,
        state,
    }
}

// Kept: a letter picks the case and what it goes by: the script's format.
fn answer(rt: &impl Print, c: &Case) -> io::Result<()> {
    match c.script.line.letter {
        b'o' => singles::offer(rt, c),
        b't' => singles::tick(rt, c),
        b'f' => singles::fresh(rt, c),
        b's' => runs::single(rt, c),
        b'l' => runs::list(rt, c),
        b'a' => runs::whole(rt, c),
        b'p' => runs::plain(rt, c),
        b'h' => runs::halves(rt, c),
        b'u' => runs::unshown(rt, c),
        _ => Ok(()),
    }
}

// A case's answer, after its name. Of a list of single calls each call has its own line, and the list none.
fn one_case(rt: &impl Print, case: &script::Case) -> io::Result<()> {
    if case.line.letter != b's' {
        case.name(rt)?;
        rt.write_all(b":")?;
    }
    answer(rt, &laid_out(case))
}

// Kept: the loop over the lines stands in each test program, since a function that is handed what to do with a case asks that it may be called, and no public function asks anything of its caller (README.md).
fn main(rt: HostRuntime) -> io::Result<()> {
    let mut buffer = [0u8; 65536];
    let count = script::read(&mut rt.stdin(), &mut buffer)?;
    let text = &buffer[..count];
    for line in script::lines(text) {
        if let Some(case) = script::case_of(text, line) {
            one_case(&rt, &case)?;
        }
    }
    Ok(())
}
