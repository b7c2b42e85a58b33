// The parts of driving the command wires: the offset in the turn, the request that goes, and an activate.

ghost use Rattle.std.specs.Prelude.{◌≡◌, ◌%◌, ◌<◌, ◌≤◌, IfOk};
ghost use Rattle.policy.specs.Laws.{TimingLaws};
ghost use Rattle.requests.specs.Sizes.{last_cycle, most_passed};
ghost use Rattle.requests.specs.Word.{kind_of};
ghost use Rattle.queues.specs.Waiting.{length_of, passed_of, waiting_at};
ghost use Rattle.rules.specs.Wire.{offset_allows, activated};
ghost use Rattle.wires.specs.InPlace.{opens_by, bus_by, Scannable, Looks};

use flight::{Banks, Flight, PENDING_PLACES};
use queues::{MOST_PASSED, Queues, RING_PLACES};
use requests::words;
use timing::Timing;

// Later than any tick: a queue in which nothing waits is not looked at again before an offer or a turn's start.
// Kept: a number and no None: the least of the ticks is taken of it and of others.
const NEVER: u64 = 18446744073709551615;

// The owner may activate at offsets before the dead time, or at all offsets if it is elided.
pub(crate) fn offset_allows(timing: Timing, elided: bool, cycle: u32, offset: u32) -> bool
    ensures { TimingLaws timing × (offset ≡ cycle % timing.turn) → result ≡ offset_allows timing elided cycle }
{
    elided | (offset < timing.turn.wrapping_sub(timing.dead))
}

// An activate brings its column command and its response after their delays, and is the last activate of its bank and of all.
pub(crate) fn activate(timing: Timing, cycle: u32, word: u32, flight: &mut Flight)
    ensures { (cycle < last_cycle) × (kind_of word < 2)
        → flight.new ≡ activated timing flight.old.columns flight.old.responses flight.old.banks word cycle }
{
    let column = (cycle.wrapping_add(timing.column) % PENDING_PLACES) as usize;
    let response = (cycle.wrapping_add(timing.response) % PENDING_PLACES) as usize;
    let bank = words::bank_place(word);
    let last = flight::activate_at(cycle, words::rank_of(word), words::kind_of(word));
    flight.columns[column] = word;
    flight.responses[response] = word;
    flight.banks[bank] = last;
    flight.last = last;
}

// The word of the k-th request from a class's oldest.
// Kept: that a class is below 16 is asked, here, below and of the queues, as in `scheduler`.
pub(crate) fn waiting_at(queues: &Queues, class: usize, k: usize) -> u32
    requires { class < 16 }
    ensures { result ≡ waiting_at queues.now class k }
{
    queues.slots[queues::place(class, queues.heads[class], k)]
}

// A tick, counted from 1, before which the gaps of a request are not met, where those from the last activate of all, by the kinds, are for a read and for a write at these; and
// if that tick has come they are. The rank gap is asked of a request whose other gaps are met, so that a look through a queue costs no more for it.
fn opens_of(
    timing: Timing,
    tick: u64,
    last: u32,
    read: u64,
    write: u64,
    banks: &Banks,
    word: u32,
) -> u64
    ensures early { result ≤ opens_by timing last read write banks.now word }
    ensures come { result ≤ tick → opens_by timing last read write banks.now word ≤ tick }
{
    let of_bank = decisions::bank_opens(timing, banks[words::bank_place(word)]);
    let of_kind = if words::kind_of(word) == 0 {
        read
    } else {
        write
    };
    let opens = of_kind.max(of_bank);
    if tick < opens {
        return opens;
    }
    decisions::rank_opens(timing, last, words::rank_of(word))
}

// Looks for the request of a class that goes: the first whose gaps are met, and none but the oldest where so many as may have passed it. Answers its place, from the oldest; or,
// where none may go, a tick, counted from 1, before which none may. The oldest is looked at first, so a queue whose oldest goes costs no more than one look; and where the last
// activate of all holds both kinds back, none is looked at.
pub(crate) fn goes_at(
    timing: Timing,
    cycle: u32,
    queues: &Queues,
    flight: &Flight,
    class: usize,
) -> Result<usize, u64>
    requires { class < 16 }
    ensures looks { Scannable queues.now class → Looks (bus_by timing cycle class queues.now flight.now) result }
    ensures waits { IfOk result (λ k. k < length_of queues.now class) }
    ensures passes { IfOk result (λ k. 0 < k → passed_of queues.now class < most_passed) }
{
    let length = queues.lengths[class];
    if length == 0 {
        return Err(NEVER);
    }
    let read = decisions::kind_opens(timing, flight.last, 0);
    let write = decisions::kind_opens(timing, flight.last, 1);
    // Kept: `as`: what the proofs speak of is then the cycle itself, and no answer of a call.
    let now = cycle as u64 + 1;
    let first = read.min(write);
    if now < first {
        return Err(first);
    }
    let mut until = NEVER;
    for k in 0..length.min(RING_PLACES) {
        let word = waiting_at(queues, class, k);
        let opens = opens_of(timing, now, flight.last, read, write, &flight.banks, word);
        if opens <= now {
            return Ok(k);
        }
        until = until.min(opens);
        if MOST_PASSED <= queues.passed[class] {
            return Err(until);
        }
    }
    Err(until)
}
