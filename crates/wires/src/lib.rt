// The waiting requests and the command wires, in place: an offer goes to the end of its class's queue, and in each cycle the wires carry a due column command, an activate
// of the owner's oldest request that may go, or nothing. Both functions are safe on anything that they are lent.

#![tactic(auto)]

ghost use Rattle.std.specs.Prelude.{◌≡◌};
ghost use Rattle.order.specs.Laws.{SmallClasses};
ghost use Rattle.rules.specs.Queue.{offer_status};
ghost use Rattle.wires.specs.InPlace.{queued_by, bus_of, Drives};

use flight::{Flight, PENDING_PLACES};
use queues::{Queues, RING_PLACES};
use requests::{Request, words};
use timing::Timing;

mod driving;
mod queueing;

// The numbers that the wires are driven by: the cycle and its offset in the turn, the owner and whether its dead time is elided. And `until`, a tick, counted from 1, before which
// none of the owner's requests may go; 0 where that is not known. It is a shortcut that changes no result: a queue in which none may go is not looked through again before one may.
// What it says holds until an offer, an activate or a turn's start.
// Kept: a number and no Option (`NoneUntil` says nothing where it is 0), since it is compared in every tick.
#[derive(Clone, Copy)]
pub struct Instant {
    pub cycle: u32,
    pub offset: u32,
    pub owner: usize,
    pub elided: bool,
    pub until: u64,
}

// What the wires carried, as its number in the log, and `until` after it.
#[derive(Clone, Copy)]
pub struct Drove {
    pub command: u32,
    pub until: u64,
}

// An offer, handed with its word: 9, 10 and 11 in that order, or 0 where it is taken and its word goes to the end of its class's queue. It changes no count of who has passed whom. A class above 15, which no policy
// has and of which document 01 says nothing, gets 9 even where the class count lets it through.
// Kept: the answer is a number and no `Refusal`, since it is what the log shows of the offer (the definition `offer_status`), in the loop of a run.
// Kept: class count and ranks side by side, as the definition offer_status takes them.
pub fn offer(classes: usize, ranks: u32, queues: &mut Queues, r: Request, word: u32) -> u32
    ensures status { SmallClasses classes → result ≡ offer_status classes ranks queues.old.lengths r }
    ensures queued { queues.new ≡ queued_by result queues.old r.class word }
{
    if !words::class_fits(classes, r) {
        return 9;
    }
    let class = r.class as usize;
    if 16 <= class {
        return 9;
    }
    if !words::bank_kind_rank_fit(ranks, r) {
        return 10;
    }
    if RING_PLACES <= queues.lengths[class] {
        return 11;
    }
    queueing::enqueue(queues, class, word);
    0
}

// The second step of a tick. It goes no further than it must: a due column command, the offset, whether any request may go by now, and then the owner's requests, oldest first,
// until one may. Its whole result is promised of a bus that has what the second step rests on, as every state in range has. Of another, which no call reaches and of which
// document 01 says nothing, the result is open.
pub fn drive(timing: Timing, at: Instant, queues: &mut Queues, flight: &mut Flight) -> Drove
    ensures { Drives (bus_of timing at queues.old flight.old) at result queues.new flight.new }
{
    let until = at.until;
    let place = (at.cycle % PENDING_PLACES) as usize;
    let due = flight.columns[place];
    if due != 0 {
        flight.columns[place] = 0;
        let command = due.wrapping_add(words::COLUMN);
        return Drove { command, until };
    }
    // Kept: `as`, as in `driving::goes_at`.
    if !driving::offset_allows(timing, at.elided, at.cycle, at.offset)
        | (at.cycle as u64 + 1 < until)
    {
        return Drove { command: 0, until };
    }
    let owner = at.owner % 16;
    let found = driving::goes_at(timing, at.cycle, queues, flight, owner);
    let k = match found {
        Ok(k) => k,
        Err(until) => return Drove { command: 0, until },
    };
    let word = driving::waiting_at(queues, owner, k);
    queueing::dequeue(queues, owner, k);
    driving::activate(timing, at.cycle, word, flight);
    Drove {
        command: word,
        until: 0,
    }
}
