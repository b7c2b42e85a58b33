// The policy: which classes there are, which may flow to which, and the turns and timing that go with them.

#![tactic(auto)]

ghost use Rattle.std.specs.Prelude.{◌≡◌};
ghost use Rattle.refusals.specs.Refusal.{status_of};
ghost use Rattle.policy.specs.Policy.{made, no_policy, flows, strictly, least, above, covers_of, cover_count, cover, cap, refusal, stored_fits, all_stored_fits, in_range, bound_of, bound_for, longest_walk};

use refusals::Refusal;
use std::array;
use timing::Timing;

// A policy. Its arrays have an entry for each of the sixteen class numbers; those at and above the class count are 0.
// Kept: an array for each number of a class, and no array of classes: the definitions and theorems of specs/ speak of the lists `rows`, `minimums`, `covers` and `caps`.
// Kept: what is asked of a policy is asked by functions and no methods: `policy::flows(p, i, j)` reads as the definition `flows p i j` beside it, and as README and docs/ name it.
#[derive(Clone, Copy)]
pub struct Policy {
    // How many classes there are: the classes are the numbers below this.
    pub classes: usize,
    // Row i has bit j set if class i may flow to class j.
    pub rows: [u16; 16],
    // The epoch's length in turns.
    pub epoch: u32,
    // How many of an epoch's last turns are each class's home turns; the caps of the classes below it are so many turns lower.
    pub minimums: [u32; 16],
    pub timing: Timing,
    // The set of classes that cover each class. Document 01: its children.
    pub covers: [u16; 16],
    // How many turns of an epoch each class may take.
    pub caps: [u32; 16],
}

// The policy of these numbers, with the covers and caps that follow from them. Nothing is refused here.
// Kept: five numbers side by side, which are fields of the policy as soon as it is one.
pub fn made(
    classes: usize,
    rows: [u16; 16],
    epoch: u32,
    minimums: [u32; 16],
    timing: Timing,
) -> Policy
    ensures { result ≡ made classes rows epoch minimums timing }
{
    let covers = array::from_fn(|i| order::cover_set(rows, i));
    let caps = array::from_fn(|i| turns::cap_in(classes, rows, epoch, minimums, i));
    Policy {
        classes,
        rows,
        epoch,
        minimums,
        timing,
        covers,
        caps,
    }
}

// The policy of no classes, all zeros: what a refusal gives.
// Kept: written out. A derived Default promises the fields one by one, and the entries of each array, which takes a longer proof to be `no_policy` than it saves lines here.
#[tactic(auto, unfolding(crate::specs::Policy::no_policy))]
pub fn none() -> Policy
    ensures { result ≡ no_policy }
{
    Policy {
        classes: 0,
        rows: [0u16; 16],
        epoch: 0,
        minimums: [0u32; 16],
        timing: Timing {
            turn: 0,
            dead: 0,
            gaps: [0u32; 4],
            bank: [0u32; 2],
            column: 0,
            response: 0,
            ranks: 0,
            rank: 0,
        },
        covers: [0u16; 16],
        caps: [0u32; 16],
    }
}

// Whether class i may flow to class j. Of a number that is no class, which document 01 leaves open: in a policy in range it flows nowhere, and nothing flows to it.
#[tactic(auto, unfolding(crate::specs::Policy::flows))]
pub fn flows(p: Policy, i: usize, j: usize) -> bool
    ensures { result ≡ flows p i j }
{
    order::flows_in(p.rows, i, j)
}

// Whether class i is strictly below class j. Of a number that is no class, which document 01 leaves open: false in a policy in range.
#[tactic(auto, unfolding(crate::specs::Policy::strictly))]
pub fn strictly(p: Policy, i: usize, j: usize) -> bool
    ensures { result ≡ strictly p i j }
{
    order::strictly_in(p.rows, i, j)
}

// The least class. Where there is none, which document 01 leaves open, 16: no class.
// Kept: 16 and no None, here and in `cover`: the definitions `least` and `cover` give it, of which the laws in specs/Laws.antt speak.
#[tactic(auto, unfolding(crate::specs::Policy::least))]
pub fn least(p: Policy) -> usize
    ensures { result ≡ least p }
{
    order::least_in(p.classes, p.rows)
}

// How many classes are strictly above a class. For a number that is no class, which document 01 leaves open, 0 in a policy in range.
#[tactic(auto, unfolding(crate::specs::Policy::above))]
pub fn above(p: Policy, class: usize) -> usize
    ensures { result ≡ above p class }
{
    order::above_in(p.rows, class)
}

// The stored set of the classes that cover a class. For a number that is no class, which document 01 leaves open, the empty set in a policy in range.
#[tactic(auto, unfolding(crate::specs::Policy::covers_of))]
pub fn covers_of(p: Policy, class: usize) -> u16
    ensures { result ≡ covers_of p class }
{
    order::of_class(p.covers, class, 0)
}

// How many classes cover a class. Document 01: the number of its children. For a number that is no class, which document 01 leaves open, 0 in a policy in range.
#[tactic(auto, unfolding(crate::specs::Policy::cover_count))]
pub fn cover_count(p: Policy, class: usize) -> usize
    ensures { result ≡ cover_count p class }
{
    masks::size(covers_of(p, class))
}

// The cover with the given number, from 1 by rising class number. Where there is none, which document 01 leaves open, 16: no class.
#[tactic(auto, unfolding(crate::specs::Policy::cover))]
pub fn cover(p: Policy, class: usize, number: usize) -> usize
    ensures { result ≡ cover p class number }
{
    masks::nth(covers_of(p, class), number)
}

// The stored cap of a class. For a number that is no class, which document 01 leaves open, 0 in a policy in range.
#[tactic(auto, unfolding(crate::specs::Policy::cap))]
pub fn cap(p: Policy, class: usize) -> u32
    ensures { result ≡ cap p class }
{
    order::of_class(p.caps, class, 0)
}

// What of 3 to 8 in document 01's table refuses the policy, the first in that order. Of a policy of no classes or of more than sixteen, which 2 refuses and of which 3 to 8 say
// nothing, it is what the tests give: the policy of no classes, all zeros, gets 6, as it has no least class.
#[tactic(auto, unfolding(crate::specs::Policy::refusal, crate::specs::Policy::policy_tests, crate::specs::Policy::first_failing, refusals::specs::Refusal::status_of, refusals::specs::Refusal::number))]
pub fn refusal(p: Policy) -> Result<(), Refusal>
    ensures { status_of result ≡ refusal p }
{
    if !order::rows_fit(p.classes, p.rows) {
        return Err(Refusal::Rows);
    }
    if !order::is_antisymmetric(p.rows) {
        return Err(Refusal::Antisymmetry);
    }
    if !order::is_transitive(p.rows) {
        return Err(Refusal::Transitivity);
    }
    if !order::has_least(p.classes, p.rows) {
        return Err(Refusal::LeastClass);
    }
    if !turns::turns_sound(p.epoch, p.minimums) {
        return Err(Refusal::Turns);
    }
    if !timing::timing_sound(p.timing) {
        return Err(Refusal::Timing);
    }
    Ok(())
}

// Whether the stored covers and cap of a class are those of the order and turns, and a number that is no class has no minimum.
#[tactic(auto, unfolding(crate::specs::Policy::stored_fits, crate::specs::Policy::is_class, crate::specs::Policy::minimum))]
fn stored_fits(p: Policy, class: usize) -> bool
    ensures { result ≡ stored_fits p class }
{
    (covers_of(p, class) == order::cover_set(p.rows, class))
        & (cap(p, class) == turns::cap_in(p.classes, p.rows, p.epoch, p.minimums, class))
        & (order::is_class(p.classes, class) | (order::of_class(p.minimums, class, 0) == 0))
}

fn all_stored_fits(p: Policy) -> bool
    ensures { result ≡ all_stored_fits p }
{
    (0..16).all(|i| stored_fits(p, i))
}

// Whether a policy handed in is in range: the policy's part of document 01's row 13.
pub fn in_range(p: Policy) -> bool
    ensures { result ≡ in_range p }
{
    (1..=16).contains(&p.classes) & refusal(p).is_ok() & all_stored_fits(p)
}

// The answers of `walk_bound`, of a class number as the arrays have it.
#[tactic(auto, unfolding(crate::specs::Policy::bound_for, crate::specs::Policy::bound_status, crate::specs::Policy::bound_of, crate::specs::Policy::is_class, crate::specs::Policy::walk_bound, refusals::specs::Refusal::number))]
fn bound_for(p: Policy, class: usize) -> Result<u32, Refusal>
    ensures { bound_of result ≡ bound_for p class }
{
    if !in_range(p) {
        return Err(Refusal::OutOfRange);
    }
    if !order::is_class(p.classes, class) {
        return Err(Refusal::Class);
    }
    Ok(order::longest_in(p.rows, class))
}

// W-212: how many classes a walk that starts at a class tries at most, the class counted: the number of classes on the longest rising chain from it, 1 to 16. A policy out of
// range answers 13, and a number that is none of the policy's classes 9.
// Kept: `as`, since usize has no From<u32>; the cast is proved to lose nothing.
pub fn walk_bound(p: Policy, class: u32) -> Result<u32, Refusal>
    ensures { bound_of result ≡ bound_for p class }
{
    bound_for(p, class as usize)
}

// W-212: how many classes any walk tries at most, which is how many one from the least class does: what hardware must be able to do in one cycle. A policy out of range
// answers 13.
pub fn longest_walk(p: Policy) -> Result<u32, Refusal>
    ensures { bound_of result ≡ longest_walk p }
{
    let lowest = least(p);
    bound_for(p, lowest)
}
