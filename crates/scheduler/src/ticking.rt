// A tick in place. A single tick and a trace's ticks are made by it.

ghost use Rattle.std.specs.Prelude.{◌≡◌, true, cond, ◌+◌, ◌%◌, ◌<◌, eqb};
ghost use Rattle.turns.specs.Turns.{free_turns};
ghost use Rattle.policy.specs.Policy.{least, in_range};
ghost use Rattle.policy.specs.Laws.{TimingLaws};
ghost use Rattle.requests.specs.Sizes.{last_cycle};
ghost use Rattle.rules.specs.Call.{after_tick};
ghost use Rattle.rules.specs.Calls.{ticked};
ghost use Rattle.scheduler.specs.InPlace.{moment_of, answer_of, Working};

use super::turning;
use policy::Policy;
use state::State;
use timing::Timing;
use wires::Instant;

// Four numbers that need not be worked out at each tick: the offset in the turn, a tick, counted from 1, before which none of the owner's requests may go (0 where that is not known; see
// `wires::Instant`), the policy's least class, and how many turns of an epoch come before its home turns.
// Kept: `until` is a number, 0 where nothing is known, and no Option: `NoneUntil` says of 0 just that, and it is compared in every tick.
#[derive(Clone, Copy)]
pub struct Moment {
    pub offset: u32,
    pub until: u64,
    pub bottom: usize,
    pub free: u32,
}

// What a call shows: its four numbers in the log.
#[derive(Clone, Copy)]
pub struct Line {
    pub status: u32,
    pub command: u32,
    pub response: u32,
    pub turn: u32,
}

// How many turns of an epoch come before its home turns: what the least class's cap has above its minimum, so that nothing is added up.
fn free_turns(p: &Policy, bottom: usize) -> u32
    requires { (in_range p.now ≡ true) × (bottom ≡ least p.now) }
    ensures { result ≡ free_turns p.now.epoch p.now.minimums }
{
    p.caps[bottom] - p.minimums[bottom]
}

pub(crate) fn moment_of(p: &Policy, cycle: u32) -> Moment
    requires { in_range p.now ≡ true }
    ensures { result ≡ moment_of p.now cycle }
{
    let bottom = order::least_in(p.classes, p.rows);
    Moment {
        offset: cycle % p.timing.turn,
        until: 0,
        bottom,
        free: free_turns(p, bottom),
    }
}

fn next_offset(timing: Timing, cycle: u32, offset: u32) -> u32
    requires { TimingLaws timing × (offset ≡ cycle % timing.turn) }
    ensures { result ≡ (cycle + 1) % timing.turn }
{
    if offset + 1 == timing.turn {
        0
    } else {
        offset + 1
    }
}

// `until` as a tick finds it: where a turn starts, nothing is known of its owner's requests.
fn until_of(offset: u32, until: u64) -> u64
    ensures { result ≡ cond (eqb offset 0) 0 until }
{
    if offset == 0 { 0 } else { until }
}

// The three steps of a tick, on a state in range with a tick left.
pub(crate) fn tick_in_place(p: &Policy, m: &mut Moment, s: &mut State) -> Line
    requires { Working p.now s.old m.old × (s.old.cycle < last_cycle) }
    ensures ticked { answer_of result s.new ≡ ticked (after_tick p.now s.old) }
    ensures working { Working p.now s.new m.new }
{
    let cycle = s.cycle;
    let offset = m.offset;
    let turn = turning::turns_at(p, m, cycle, &s.queues.lengths, &mut s.turns);
    let at = Instant {
        cycle,
        offset,
        owner: s.turns.owner,
        elided: s.turns.elided,
        until: until_of(offset, m.until),
    };
    let drove = wires::drive(p.timing, at, &mut s.queues, &mut s.flight);
    let response = flight::take_due(cycle, &mut s.flight.responses);
    s.cycle = cycle + 1;
    m.offset = next_offset(p.timing, cycle, offset);
    m.until = drove.until;
    Line {
        status: 0,
        command: drove.command,
        response,
        turn,
    }
}
