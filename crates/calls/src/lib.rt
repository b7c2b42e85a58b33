// An offer and a tick made singly. Each is a run over one trace number, so that a state is taken apart and put together in one place alone.

#![tactic(auto)]

ghost use Rattle.std.specs.Prelude.{◌≡◌};
ghost use Rattle.rules.specs.Call.{offer, tick};

use policy::Policy;
use requests::{Record, Request, Wires, words};
use state::{Offered, State, Ticked};

// An offer: 13, 9, 10, 11 in that order. Taken, it goes to the end of its class's queue as it is, and nothing else changes. It is a run over its request's word.
// Kept: numbers, here and in `tick`, as the definitions offer and tick give them.
pub fn offer(p: Policy, s: State, r: Request) -> Offered
    ensures { result ≡ offer p s r }
{
    let mut line = [0; 4];
    let ran = scheduler::run(p, s, &[words::word_of(r)], &mut line);
    let status = if ran.status == 0 { line[0] } else { 13 };
    Offered {
        status,
        state: ran.state,
    }
}

// A tick: 13, 12; else the three steps of document 01's "A tick". It is a run over the trace number 0. A refused one shows nothing.
pub fn tick(p: Policy, s: State) -> Ticked
    ensures { result ≡ tick p s }
{
    let mut line = [0; 4];
    let ran = scheduler::run(p, s, &[0], &mut line);
    if ran.status != 0 {
        return Ticked {
            status: 13,
            state: ran.state,
            shown: Record {
                wires: Wires::Nothing,
                response: 0,
                turn: 0,
            },
        };
    }
    let [status, command, response, turn] = line;
    Ticked {
        status,
        state: ran.state,
        shown: Record {
            wires: words::wires_of(command),
            response,
            turn,
        },
    }
}
