// The cases that document 01 says are to be run, of what goes by a policy alone: policy files, stored policies, and extracts of logs; and the masks of W-205, which go by
// a number. They stand in the script, the file stdin, a case to a line; each prints a line or more with its name and the answer. The lines are held against the stored
// output, and the Rust model's tests hold the stored output against the model's own answers.

#![tactic(auto)]

use extracts::Whose;
use policy::Policy;
use script::List;
use std::io;

mod extracts;
mod policies;
mod sets;

// A case, and what it goes by: the numbers of the policy file, of the trace and of the log, and its policy.
#[derive(Clone, Copy)]
pub(crate) struct Case<'a> {
    pub script: script::Case<'a>,
    pub file: List,
    pub trace: List,
    pub log: List,
    pub policy: Policy,
}

// Where the changes of the policy stand among a case's own numbers, by its letter.
fn changes_from(letter: u8) -> usize {
    match letter {
        b'x' | b's' => 4,
        b'l' => 1,
        _ => 0,
    }
}

// A case with what it goes by. The changes of its policy stand after its own numbers.
fn laid_out<'a>(case: &script::Case<'a>) -> Case<'a> {
    let text = case.text;
    let line = case.line;
    let file = script::numbers(text, line.file);
    let given = policies::reading(&file).policy;
    Case {
        script: *case,
        file,
        trace: script::numbers(text, line.trace),
        log: script::numbers(text, line.log),
        policy: policies::changed(given, &case.own, changes_from(line.letter)),
    }
}

// Kept: a letter picks the case and what it goes by: the script's format.
fn answer(rt: &impl Print, c: &Case) -> io::Result<()> {
    let first = c.script.own.get(0);
    match c.script.line.letter {
        b'r' => policies::read(rt, &c.file),
        b'w' => policies::with(rt, c),
        b'c' => policies::cut(rt, c),
        b'i' => policies::in_range(rt, c),
        b'l' => policies::longest(rt, c),
        b'x' => extracts::sized(rt, c, Whose::Class(first)),
        b'g' => extracts::seen(rt, c, Whose::Class(first), &c.log),
        b'm' => extracts::seen_of_run(rt, c, Whose::Class(first)),
        b's' => extracts::sized(rt, c, Whose::Set(first)),
        b'k' => extracts::seen(rt, c, Whose::Set(first), &c.log),
        b'n' => extracts::seen_of_run(rt, c, Whose::Set(first)),
        b'a' => sets::alone(rt, c),
        b'b' => sets::below(rt, c),
        _ => Ok(()),
    }
}

// A case's name, and its answer.
fn one_case(rt: &impl Print, case: &script::Case) -> io::Result<()> {
    case.name(rt)?;
    rt.write_all(b":")?;
    answer(rt, &laid_out(case))
}

// Kept: the loop over the lines stands in each test program, since a function that is handed what to do with a case asks that it may be called, and no public function asks anything of its caller (README.md).
fn main(rt: HostRuntime) -> io::Result<()> {
    let mut buffer = [0u8; 65536];
    let count = script::read(&mut rt.stdin(), &mut buffer)?;
    let text = &buffer[..count];
    for line in script::lines(text) {
        if let Some(case) = script::case_of(text, line) {
            one_case(&rt, &case)?;
        }
    }
    Ok(())
}
