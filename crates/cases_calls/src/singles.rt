// Offers, ticks and fresh states.

use super::Case;
use flight::Flight;
use policy::Policy;
use queues::Queues;
use requests::Request;
use state::{State, Turns};
use std::io;

// What a call answers: its four log numbers, the status first, and the state after it.
#[derive(Clone, Copy)]
pub(crate) struct Called {
    pub log: [u32; 4],
    pub state: State,
}

// Whether the state that a call handed back is the one that it was given.
pub(crate) fn stands(rt: &impl Print, before: &State, after: &State) -> io::Result<()> {
    if before == after {
        rt.write_all(b", as it was")
    } else {
        rt.write_all(b", changed")
    }
}

// The four log numbers, for a refused call whether the state is as it was, and the line's end.
pub(crate) fn show(rt: &impl Print, before: &State, made: &Called) -> io::Result<()> {
    script::all_spaced(rt, &made.log)?;
    if made.log[0] != 0 {
        stands(rt, before, &made.state)?;
    }
    rt.write_all(b"\n")
}

fn tick_of(p: Policy, s: State) -> Called {
    let made = calls::tick(p, s);
    let shown = made.shown;
    let command = requests::words::command_number(shown.wires);
    Called {
        log: [made.status, command, shown.response, shown.turn],
        state: made.state,
    }
}

fn offer_of(p: Policy, s: State, r: Request) -> Called {
    let made = calls::offer(p, s, r);
    Called {
        log: [made.status, 0, 0, 0],
        state: made.state,
    }
}

// The single call of a trace number. One of neither form is no call, and a run writes 14 for it.
pub(crate) fn call_of(p: Policy, s: State, word: u32) -> Called {
    if word == 0 {
        return tick_of(p, s);
    }
    if requests::words::is_offer(word) {
        return offer_of(p, s, requests::words::request_of(word));
    }
    Called {
        log: [14, 0, 0, 0],
        state: s,
    }
}

// CLASS RANK KIND BANK TAG.
pub(crate) fn offer(rt: &impl Print, c: &Case) -> io::Result<()> {
    let own = c.script.own;
    let r = Request {
        class: own.get(0),
        kind: own.get(2),
        bank: own.get(3),
        rank: own.get(1),
        tag: (own.get(4) % 65536) as u16,
    };
    show(rt, &c.state, &offer_of(c.policy, c.state, r))
}

pub(crate) fn tick(rt: &impl Print, c: &Case) -> io::Result<()> {
    show(rt, &c.state, &tick_of(c.policy, c.state))
}

// The state of all zeros, as asking a fresh one of an unfit policy hands it back.
// Kept: zeros written out, as in `state`.
fn all_zeros() -> State {
    State {
        cycle: 0,
        classes: 0,
        queues: Queues {
            slots: [0; 128],
            heads: [0; 16],
            lengths: [0; 16],
            passed: [0; 16],
        },
        turns: Turns {
            owner: 0,
            elided: false,
            left: [0; 16],
            pointers: [0; 16],
        },
        flight: Flight {
            columns: [0; 32],
            responses: [0; 32],
            banks: [0; 32],
            last: 0,
        },
    }
}

// What asking a fresh state of a policy answers.
pub(crate) fn fresh(rt: &impl Print, c: &Case) -> io::Result<()> {
    let made = state::fresh(c.policy);
    script::spaced(rt, made.status)?;
    if made.state == all_zeros() {
        rt.write_all(b", all zeros")?;
    }
    rt.write_all(b"\n")
}
