// The scheduler: the calls of a trace one after the other, in place. The traversal gives each turn an owner, and each tick drives the command wires and hands responses
// back. The crates `calls` and `logs` hand its run on, as single calls and as document 01's run.
// Kept: policy and moment, and policy, moment and state, are references side by side and no struct of them: `Known` and `Working` say in one clause what they rest on together, and a struct would be made
// for each call and taken apart in each clause.
// Kept: that a class is below 16 is asked of each function and is no type: a state stores its owner as any number, since 13 refuses one above (edit an_owner_that_is_no_class), and `masks::nth` answers 16.

#![tactic(auto)]

ghost use Rattle.std.specs.Prelude.{◌≡◌, ◌++◌, ◌+◌, ◌*◌, ◌≤◌, length, drop};
ghost use Rattle.rules.specs.Calls.{answer_to, state_after, log_of, line_written};
ghost use Rattle.rules.specs.Run.{run, log_after};
ghost use Rattle.scheduler.specs.InPlace.{answered_with, answer_of, Working};

use policy::Policy;
use requests::{Call, LAST_CYCLE};
use state::{Ran, State};
use ticking::{Line, Moment};

mod lookahead;
mod ticking;
mod traversal;
mod turning;

// Writes the four log numbers of a call.
// Kept: four stores, which are the four of the clause's `line_written`, and no copy of an array that would be made for it.
fn write(log: &mut [u32], at: usize, line: Line)
    requires { at + 4 ≤ length log.old }
    ensures { log.new ≡ line_written log.old at line.status line.command line.response line.turn }
{
    log[at] = line.status;
    log[at + 1] = line.command;
    log[at + 2] = line.response;
    log[at + 3] = line.turn;
}

// The line of a call that shows nothing: its status.
// Kept: a number and no `Refusal`, here and in the answers of `run`: it is what the log's first column shows, as the definitions `answer_to` and `run` give it.
fn answered(status: u32) -> Line
    ensures { result ≡ answered_with status }
{
    Line {
        status,
        command: 0,
        response: 0,
        turn: 0,
    }
}

// The call of a trace word, in place, on a state in range.
fn call_at(p: &Policy, m: &mut Moment, s: &mut State, word: u32) -> Line
    requires { Working p.now s.old m.old }
    ensures answered { answer_of result s.new ≡ answer_to p.now s.old word }
    ensures working { Working p.now s.new m.new }
{
    match requests::call_of(word) {
        Call::Tick => {
            if LAST_CYCLE <= s.cycle {
                return answered(12);
            }
            ticking::tick_in_place(p, m, s)
        }
        Call::Offer(r) => {
            // Nothing is known any more of when one of the owner's requests may go, whether the offer is taken or not, and of whatever class.
            m.until = 0;
            answered(wires::offer(s.classes, p.timing.ranks, &mut s.queues, r, word))
        }
        Call::Malformed => answered(14),
    }
}

// The calls of a trace one after the other, in place, on a state in range.
fn calls(p: &Policy, m: &mut Moment, s: &mut State, trace: &[u32], log: &mut [u32])
    requires { Working p.now s.old m.old × (4 * length trace.now ≤ length log.old) }
    ensures state { s.new ≡ state_after p.now s.old trace.now }
    ensures logged { log.new ≡ log_of p.now s.old trace.now ++ drop (4 * length trace.now) log.old }
{
    for i in 0..trace.len() {
        let line = call_at(p, m, s, trace[i]);
        write(log, 4 * i, line);
    }
}

// A run over a trace: 13, 15; else each trace number's call in order, whose four numbers go into the log. Numbers past them stay, and a refused run writes nothing.
pub fn run(p: Policy, s: State, trace: &[u32], log: &mut [u32]) -> Ran
    ensures value { result ≡ run p s trace.now log.old }
    ensures log_after { log.new ≡ log_after p s trace.now log.old }
{
    if !state::in_range(p, s) {
        return Ran {
            status: 13,
            state: s,
        };
    }
    if log.len() / 4 < trace.len() {
        return Ran {
            status: 15,
            state: s,
        };
    }
    let mut state = s;
    let mut m = ticking::moment_of(&p, s.cycle);
    calls(&p, &mut m, &mut state, trace, log);
    Ran { status: 0, state }
}
