// The policies and states of the cases: those that files and calls give, with numbers of them changed. A change is a field's first letter, a place in it, and the
// number that is to stand there. The letters of a policy's fields are large, those of a state's are small.
// Kept: a letter picks the field: the script's format.

use flight::Flight;
use policy::Policy;
use queues::Queues;
use script::List;
use state::{State, Turns};

// The policy that reading a list's numbers as the bytes of a file gives.
// Kept: two lines, as in cases_policies and cases_orders: `script` would rest on `file` for them.
pub(crate) fn policy_of(file: &List) -> Policy {
    let bytes = file.bytes::<160>();
    file::read(&bytes[..file.count.min(160)]).policy
}

// Dead time, Board (how many ranks there are), Gap (the rank gap), Row, Epoch, Cover, Turns (a class's cap).
// Kept: cases_policies changes other numbers of a policy than these, and the letters of those change nothing here.
fn policy_with(p: Policy, field: u8, at: usize, to: u32) -> Policy {
    let mut policy = p;
    match field {
        b'D' => policy.timing.dead = to,
        b'B' => policy.timing.ranks = to,
        b'G' => policy.timing.rank = to,
        b'R' if at < 16 => policy.rows[at] = (to % 65536) as u16,
        b'E' if at < 16 => policy.epoch = to,
        b'C' if at < 16 => policy.covers[at] = (to % 65536) as u16,
        b'T' if at < 16 => policy.caps[at] = to,
        _ => {}
    }
    policy
}

// queue length, head, passed (how many have passed the oldest), waiting word.
fn queues_with(q: Queues, field: u8, at: usize, to: u32) -> Queues {
    let mut queues = q;
    match field {
        b'w' if at < 128 => queues.slots[at] = to,
        b'q' if at < 16 => queues.lengths[at] = to as usize,
        b'h' if at < 16 => queues.heads[at] = to as usize,
        b'p' if at < 16 => queues.passed[at] = to as usize,
        _ => {}
    }
    queues
}

// owner, turns left, mark.
fn turns_with(t: Turns, field: u8, at: usize, to: u32) -> Turns {
    let mut turns = t;
    match field {
        b'o' if at < 16 => turns.owner = to as usize,
        b'l' if at < 16 => turns.left[at] = to,
        b'm' if at < 16 => turns.pointers[at] = to as usize,
        _ => {}
    }
    turns
}

// column, response, bank's last activate, and the last activate of all.
fn flight_with(f: Flight, field: u8, at: usize, to: u32) -> Flight {
    let mut flight = f;
    match field {
        b'c' if at < 32 => flight.columns[at] = to,
        b'r' if at < 32 => flight.responses[at] = to,
        b'b' if at < 32 => flight.banks[at] = to,
        b'a' if at < 32 => flight.last = to,
        _ => {}
    }
    flight
}

// number of classes, time (the cycle), and what stands in the three parts.
fn state_with(s: State, field: u8, at: usize, to: u32) -> State {
    let mut state = s;
    match field {
        b'n' => state.classes = to as usize,
        b't' => state.cycle = to,
        _ => {
            state.queues = queues_with(s.queues, field, at, to);
            state.turns = turns_with(s.turns, field, at, to);
            state.flight = flight_with(s.flight, field, at, to);
        }
    }
    state
}

// A policy and a state with the changes that stand in a case's own numbers from an index on.
// Kept: a loop, as in cases_policies, over other fields.
pub(crate) fn changed(p: Policy, s: State, own: &List, from: usize) -> (Policy, State) {
    let mut policy = p;
    let mut state = s;
    for change in own.changes(from) {
        let [field, place, to] = *change;
        let letter = (field % 256) as u8;
        policy = policy_with(policy, letter, place as usize, to);
        state = state_with(state, letter, place as usize, to);
    }
    (policy, state)
}
