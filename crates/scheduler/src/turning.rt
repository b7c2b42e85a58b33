// A turn's start, in place: the turns left at an epoch's start, where the traversal starts, the traversal, the charge, and whether the dead time is elided.

ghost use Rattle.std.specs.Prelude.{◌≡◌, true, cond, not, ◌&&◌, ◌%◌, ◌<◌, eqb, length, get_or};
ghost use Rattle.policy.specs.Policy.{home_turn, in_range};
ghost use Rattle.requests.specs.Sizes.{last_cycle};
ghost use Rattle.rules.specs.Climb.{Climbs};
ghost use Rattle.rules.specs.Traversal.{first_class, candidates, ends_at, try_class, charge};
ghost use Rattle.rules.specs.Lookahead.{elides};
ghost use Rattle.rules.specs.Step.{left_at_start, start_turn, turns_at};
ghost use Rattle.scheduler.specs.InPlace.{Known, reached_of, start_of};

use super::ticking::Moment;
use super::{lookahead, traversal};
use policy::Policy;
use state::Turns;

// Where a turn's traversal starts: the class, and whether the turn is a home turn, which is then that class's.
// Kept: a class beside a flag and no enum of two cases: both hold a class, and all but one of those who ask want the class in both.
#[derive(Clone, Copy)]
pub struct First {
    pub class: usize,
    pub home: bool,
}

// The class where the traversal of a turn starts: a home turn's, or the least. A turn before the epoch's home turns need not look at the minimums.
fn first_class(p: &Policy, m: &Moment, number: u32) -> First
    requires { Known p.now m.now }
    ensures { result ≡ record { class = first_class p.now number; home = home_turn p.now number } }
{
    let place = number % p.epoch;
    if place < m.free {
        return First {
            class: m.bottom,
            home: false,
        };
    }
    First {
        class: turns::home_at(p.minimums, place - m.free),
        home: true,
    }
}

// The turns left as a turn starts: the caps, at an epoch's start.
fn left_at_start(p: &Policy, number: u32, left: &mut [u32; 16])
    requires { in_range p.now ≡ true }
    ensures { left.new ≡ left_at_start p.now number left.old }
{
    if number % p.epoch == 0 {
        *left = p.caps;
    }
}

// Whether the class of a home turn takes it: if a request waits, turns left or not.
fn takes_home(first: First, lengths: &[usize; 16]) -> bool
    requires { first.class < 16 }
    ensures { result ≡ (first.home && not (eqb (get_or lengths.now first.class 0) 0)) }
{
    first.home & (lengths[first.class] != 0)
}

// The owner of a turn whose traversal starts at a class: that class, where it takes its home turn, and else the one at which the traversal ends. The classes that are tried are counted, from 0 on.
// Kept: a flag, here and in `charge`, as the clauses' `cond taken` has it.
fn owner_from(
    p: &Policy,
    lengths: &[usize; 16],
    left: &[u32; 16],
    pointers: &mut [usize; 16],
    tried: &mut u32,
    from: usize,
    taken: bool,
) -> usize
    requires { Climbs p.now.rows p.now.covers × (from < 16) × (length pointers.old ≡ 16) × (tried.old ≡ 0) }
    ensures { reached_of result pointers.new tried.new ≡ cond taken (ends_at pointers.old from)
        (try_class 16 (candidates p.now.covers lengths.now left.now) pointers.old from) }
{
    if taken {
        *tried = 1;
        return from;
    }
    traversal::try_class(p, lengths, left, pointers, tried, from)
}

// The owner's turns left fall by 1, not below 0. A class that takes its home turn is not charged.
fn charge(left: &mut [u32; 16], owner: usize, taken: bool)
    requires { owner < 16 }
    ensures { left.new ≡ cond taken left.old (charge left.old owner) }
{
    if !taken {
        left[owner] = decisions::one_less(left[owner]);
    }
}

// Whether the owner's dead time is elided: before a home turn, if the owner may flow to its class. Before another the lookahead decides, which goes by the caps in an
// epoch's last turn.
fn elides(p: &Policy, m: &Moment, number: u32, turns: &Turns, owner: usize) -> bool
    requires { Known p.now m.now × (number < last_cycle) × (owner < 16) }
    ensures { result ≡ elides p.now number turns.now.left turns.now.pointers owner }
{
    let next = first_class(p, m, number + 1);
    if next.home {
        return masks::has(p.rows[owner], next.class);
    }
    if (number + 1) % p.epoch == 0 {
        return lookahead::reaches(p, &p.caps, &turns.pointers, owner, next.class);
    }
    lookahead::reaches(p, &turns.left, &turns.pointers, owner, next.class)
}

// Starts the turn with the given number. Answers its number in the log.
fn start_turn(p: &Policy, m: &Moment, number: u32, lengths: &[usize; 16], turns: &mut Turns) -> u32
    requires { Known p.now m.now × (number < last_cycle) × (length turns.old.left ≡ 16)
        × (length turns.old.pointers ≡ 16) }
    ensures { start_of turns.new result
        ≡ start_turn p.now number lengths.now turns.old.left turns.old.pointers }
{
    left_at_start(p, number, &mut turns.left);
    let first = first_class(p, m, number);
    let taken = takes_home(first, lengths);
    let mut tried = 0u32;
    let owner = owner_from(
        p,
        lengths,
        &turns.left,
        &mut turns.pointers,
        &mut tried,
        first.class,
        taken,
    );
    charge(&mut turns.left, owner, taken);
    turns.owner = owner;
    turns.elided = elides(p, m, number, turns, owner);
    decisions::turn_word(owner, turns.elided, tried)
}

// The turns as a tick has them: a turn starts at each multiple of the turn length. Answers the turn's number in the log, 0 unless one starts.
pub(crate) fn turns_at(
    p: &Policy,
    m: &Moment,
    cycle: u32,
    lengths: &[usize; 16],
    turns: &mut Turns,
) -> u32
    requires { Known p.now m.now × (m.now.offset ≡ cycle % p.now.timing.turn) × (cycle < last_cycle)
        × (length turns.old.left ≡ 16) × (length turns.old.pointers ≡ 16) }
    ensures { start_of turns.new result ≡ turns_at p.now cycle lengths.now turns.old }
{
    let offset = m.offset;
    if offset != 0 {
        return 0;
    }
    start_turn(p, m, cycle / p.timing.turn, lengths, turns)
}
