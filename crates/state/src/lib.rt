// The state between two calls, the fresh state, and what is in range. And the answers of the calls, which hold one.

#![tactic(auto)]

ghost use Rattle.std.specs.Prelude.{◌≡◌};
ghost use Rattle.basics.specs.Below.{every};
ghost use Rattle.state.specs.Fresh.{empty_queues, nothing_in_flight, state_at_start, fresh};
ghost use Rattle.state.specs.Range.{counts_in_range, turns_in_range, state_in_range, in_range};

use flight::Flight;
use policy::Policy;
use queues::Queues;
use requests::{LAST_CYCLE, Record};

// Who has the turn, and what each class has left.
// Kept: two lists with an entry for each class, and a pointer of 0 for none, are what the definition turns_in_range and the turns' rules read.
#[derive(Clone, Copy, PartialEq, Eq)]
pub struct Turns {
    pub owner: usize,
    // Whether the owner's dead time is elided. Document 01: dropped.
    pub elided: bool,
    // The turns that each class has left in the epoch.
    pub left: [u32; 16],
    // Each class's round-robin pointer: the number of the cover that it names, 0 before the class has passed a turn on. Document 01: its mark.
    pub pointers: [usize; 16],
}

// A state between two calls.
#[derive(Clone, Copy, PartialEq, Eq)]
pub struct State {
    // The number of the next tick.
    pub cycle: u32,
    // The policy's class count.
    pub classes: usize,
    pub queues: Queues,
    pub turns: Turns,
    pub flight: Flight,
}

// The answer of asking for a fresh state: 0, or 13 and the state of all zeros.
// Kept: a number with a state also where it is refused, as the definition fresh gives it and an_unfit_policy_gets_a_state.edit tries it.
#[derive(Clone, Copy)]
pub struct Made {
    pub status: u32,
    pub state: State,
}

// The answer of an offer: 0, or the number that refuses it, and the state after it.
// Kept: a number with a state also where it is refused, which the definition offer (rules: Call) hands back.
#[derive(Clone, Copy)]
pub struct Offered {
    pub status: u32,
    pub state: State,
}

// The answer of a tick: 0, or the number that refuses it, the state after it, and what it showed.
// Kept: a number with a state also where it is refused, which the definition tick (rules: Call) hands back.
#[derive(Clone, Copy)]
pub struct Ticked {
    pub status: u32,
    pub state: State,
    pub shown: Record,
}

// The answer of a run: 0, or the number that refuses it, and the state after it.
// Kept: a number with a state also where it is refused, which the definition run (rules: Run) hands back.
#[derive(Clone, Copy)]
pub struct Ran {
    pub status: u32,
    pub state: State,
}

fn counts_in_range(p: Policy, s: State) -> bool
    ensures { result ≡ counts_in_range p s }
{
    (s.classes == p.classes) & order::is_class(p.classes, s.turns.owner) & (s.cycle <= LAST_CYCLE)
}

// Every class's pointer is one of its covers' numbers or 0, and its turns left are at most its cap.
fn turns_in_range(p: &Policy, turns: &Turns) -> bool
    ensures { result ≡ every 16 (turns_in_range p.now turns.now) }
{
    (0..16).all(|class| {
        (turns.pointers[class] <= masks::size(p.covers[class]))
            & (turns.left[class] <= p.caps[class])
    })
}

// The state's part of document 01's row 13. Where the counts do not fit, nothing else is looked at.
fn state_in_range(s: State, p: Policy) -> bool
    ensures { result ≡ state_in_range p s }
{
    counts_in_range(p, s)
        && queues::queues_in_range(p.classes, p.timing.ranks, &s.queues)
            & turns_in_range(&p, &s.turns)
            & flight::flight_in_range(p.classes, p.timing, s.cycle, s.flight)
}

// Whether a policy and a state handed in are in range: document 01's row 13 does not apply.
#[tactic(auto, unfolding(crate::specs::Range::in_range))]
pub fn in_range(p: Policy, s: State) -> bool
    ensures { result ≡ in_range p s }
{
    policy::in_range(p) & state_in_range(s, p)
}

// Kept: zeros written out, here and below, as in `policy::none`.
#[tactic(auto, unfolding(crate::specs::Fresh::empty_queues, crate::specs::Fresh::zeros))]
fn empty_queues() -> Queues
    ensures { result ≡ empty_queues }
{
    Queues {
        slots: [0; 128],
        heads: [0; 16],
        lengths: [0; 16],
        passed: [0; 16],
    }
}

#[tactic(auto, unfolding(crate::specs::Fresh::nothing_in_flight, crate::specs::Fresh::zeros))]
fn nothing_in_flight() -> Flight
    ensures { result ≡ nothing_in_flight }
{
    Flight {
        columns: [0; 32],
        responses: [0; 32],
        banks: [0; 32],
        last: 0,
    }
}

// A state at cycle 0 with these turns left: empty queues, nothing in flight, pointers 0, owner 0 and its dead time kept.
#[tactic(auto, unfolding(crate::specs::Fresh::state_at_start, crate::specs::Fresh::zeros))]
fn state_at_start(classes: usize, left: [u32; 16]) -> State
    ensures { result ≡ state_at_start classes left }
{
    State {
        cycle: 0,
        classes,
        queues: empty_queues(),
        turns: Turns {
            owner: 0,
            elided: false,
            left,
            pointers: [0; 16],
        },
        flight: nothing_in_flight(),
    }
}

// The fresh state of a policy: 0 and the state, or 13 and the state of all zeros where the policy is unfit.
pub fn fresh(p: Policy) -> Made
    ensures { result ≡ fresh p }
{
    if !policy::in_range(p) {
        return Made {
            status: 13,
            state: state_at_start(0, [0; 16]),
        };
    }
    Made {
        status: 0,
        state: state_at_start(p.classes, p.caps),
    }
}
