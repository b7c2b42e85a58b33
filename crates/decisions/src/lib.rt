// What is decided on single numbers: where a class's pointer moves and whether the class takes the turn, what a turn costs and how it is
// shown, and when a gap is met.

#![tactic(auto)]

ghost use Rattle.std.specs.Prelude.{◌≡◌, ◌+◌, ◌-◌, ◌*◌, ◌%◌, ◌<◌, get_or};
ghost use Rattle.rules.specs.Traversal.{moved, takes_by};
ghost use Rattle.rules.specs.Wire.{opens_at, kind_gap, bank_gap, rank_opens};
ghost use Rattle.rules.specs.Step.{turn_word};

use timing::Timing;

// The round-robin pointer, moved on by 1: from the number of covers back to 1, and 0 where there are none.
#[tactic(auto, unfolding(rules::specs::Traversal::moved))]
pub fn moved(covers: u16, pointer: usize) -> usize
    ensures { result ≡ moved covers pointer }
{
    if covers == 0 {
        return 0;
    }
    if pointer < masks::size(covers) {
        pointer + 1
    } else {
        1
    }
}

// A class takes the turn if it has a request waiting and turns left, or if nothing is above it, so that it has no cover.
#[tactic(auto, unfolding(rules::specs::Traversal::takes_by))]
pub fn takes(covers: u16, length: usize, left: u32) -> bool
    ensures { result ≡ takes_by covers length left }
{
    (length != 0) & (left != 0) | (covers == 0)
}

// The turns left after one more, not below 0.
// Kept: under its name, since the edit turns_left_fall_below_0 and docs/ speak of it.
pub fn one_less(left: u32) -> u32
    ensures { result ≡ left - 1 }
{
    left.saturating_sub(1)
}

// A started turn's number in the log: 1 and the owner, 256 more if its dead time is elided, and in bits 16 to 20 how many classes were tried. An owner is below 16 and no more than 16 are tried; another number, of
// which the papers say nothing, counts as what it is modulo 16, and modulo 32.
// Kept: `as`, which narrows: proved to lose nothing.
#[tactic(auto, unfolding(rules::specs::Step::turn_word))]
pub fn turn_word(owner: usize, elided: bool, tried: u32) -> u32
    ensures { result ≡ turn_word (owner % 16) elided (tried % 32) }
{
    let number = (owner % 16) as u32;
    let field = 65536 * (tried % 32);
    1 + number + 256 * u32::from(elided) + field
}

// The first tick, counted from 1, at which a gap after the last activate is met: 0 where there was none.
// Kept: 0 and no Option, here and below: the definitions opens_at and rank_opens give it, and the later of two such ticks is taken.
#[tactic(auto, unfolding(rules::specs::Wire::opens_at))]
pub fn opens_at(last: u32, gap: u32) -> u64
    ensures { result ≡ opens_at last gap }
{
    if last == 0 {
        return 0;
    }
    u64::from(flight::activate_next(last)) + u64::from(gap)
}

// The gap between two kinds, the earlier first; and that of a bank, after a read and after a write.
// Kept: picked by tests and not by an index: for that the gaps would have to stand in memory, written there for each request that is looked at.
fn kind_gap(gaps: [u32; 4], earlier: u32, later: u32) -> u32
    ensures { earlier < 2 → later < 2 → result ≡ get_or gaps (2 * earlier + later) 0 }
{
    if earlier == 0 {
        return if later == 0 { gaps[0] } else { gaps[1] };
    }
    if later == 0 { gaps[2] } else { gaps[3] }
}

fn bank_gap(gaps: [u32; 2], kind: u32) -> u32
    ensures { kind < 2 → result ≡ get_or gaps kind 0 }
{
    if kind == 0 { gaps[0] } else { gaps[1] }
}

// The same of the gap from the last activate of all, by the two kinds. A kind is 0 or 1; another number, of which document 01 says nothing, counts as what it is modulo 2.
// Kept: a number and no enum of kinds, since the clause takes every number (`kind % 2`), as a request may have any.
#[tactic(auto, unfolding(flight::specs::Flight::activate_kind))]
pub fn kind_opens(timing: Timing, last: u32, kind: u32) -> u64
    ensures { result ≡ opens_at last (kind_gap timing last (kind % 2)) }
{
    let gap = kind_gap(timing.gaps, flight::activate_kind(last), kind % 2);
    opens_at(last, gap)
}

// And of the gap between ranks: 0 where the last activate of all was on the rank.
#[tactic(auto, unfolding(rules::specs::Wire::rank_opens))]
pub fn rank_opens(timing: Timing, last: u32, rank: u32) -> u64
    ensures { result ≡ rank_opens timing last rank }
{
    if flight::activate_rank(last) == rank {
        0
    } else {
        opens_at(last, timing.rank)
    }
}

// And of that from the last activate of a bank, by its kind.
#[tactic(auto, unfolding(flight::specs::Flight::activate_kind))]
pub fn bank_opens(timing: Timing, of_bank: u32) -> u64
    ensures { result ≡ opens_at of_bank (bank_gap timing of_bank) }
{
    let gap = bank_gap(timing.bank, flight::activate_kind(of_bank));
    opens_at(of_bank, gap)
}
