// What is in flight: how the pending column commands and responses and the last activates are stored, and what 13 refuses of them.

#![tactic(auto)]

ghost use Rattle.std.specs.Prelude.{◌≡◌, ◌%◌, get_or};
ghost use Rattle.basics.specs.Below.{every};
ghost use Rattle.requests.specs.Sizes.{bank_places};
ghost use Rattle.flight.specs.Flight.{due_at, sent_at, activate_at, activate_next, activate_rank, activate_kind, activate_in_range, pending_in_range, flight_in_range};

use requests::{BANK_PLACES, words};
use std::mem;
use timing::Timing;

// The pending places; and the arrays of a word for each pending place and of a last activate for each bank of each rank.
pub const PENDING_PLACES: u32 = 32;

pub type Pending = [u32; 32];

pub type Banks = [u32; BANK_PLACES];

// What is on its way, and when the last activates were.
// Kept: 0 for none, and a last activate as one number, are the stored form that the definitions due_at and activate_at give.
#[derive(Clone, Copy, PartialEq, Eq)]
pub struct Flight {
    // The words of the pending column commands and responses, each at its due cycle modulo 32; 0 for none.
    pub columns: Pending,
    pub responses: Pending,
    // The last activate of each bank, at eight times its rank plus its number, and of all: eight times one more than its cycle, plus twice its rank, plus its kind; 0 where
    // there was none.
    pub banks: Banks,
    pub last: u32,
}

// How a last activate is stored: eight times one more than its cycle, plus twice its rank, plus its kind. A cycle is below 16,777,216, a rank is 0 to 3 and a kind is 0 or 1; of
// other numbers, of which document 01 says nothing, the low 24 bits, the low two and the low bit count.
#[tactic(auto, unfolding(crate::specs::Flight::activate_at))]
pub fn activate_at(cycle: u32, rank: u32, kind: u32) -> u32
    ensures { result ≡ activate_at (cycle % 16777216) (rank % 4) (kind % 2) }
{
    8 * (cycle % 16777216 + 1) + 2 * (rank % 4) + kind % 2
}

// One more than the cycle of a stored last activate.
// Kept: a function for each part of the stored number, as the definitions have them.
#[tactic(auto, unfolding(crate::specs::Flight::activate_next))]
pub fn activate_next(last: u32) -> u32
    ensures { result ≡ activate_next last }
{
    last / 8
}

// The rank of a stored last activate.
#[tactic(auto, unfolding(crate::specs::Flight::activate_rank))]
pub fn activate_rank(last: u32) -> u32
    ensures { result ≡ activate_rank last }
{
    last / 2 % 4
}

// The kind of a stored last activate.
#[tactic(auto, unfolding(crate::specs::Flight::activate_kind))]
pub fn activate_kind(last: u32) -> u32
    ensures { result ≡ activate_kind last }
{
    last % 2
}

// Takes out the word that is due at a cycle, 0 for none.
#[tactic(auto, unfolding(crate::specs::Flight::due_at, crate::specs::Flight::sent_at))]
pub fn take_due(cycle: u32, pending: &mut Pending) -> u32
    ensures word { result ≡ due_at pending.old cycle }
    ensures sent { pending.new ≡ sent_at pending.old cycle }
{
    let at = (cycle % PENDING_PLACES) as usize;
    mem::replace(&mut pending[at], 0)
}

// A last activate is before the cycle, or there was none.
fn activate_in_range(cycle: u32, last: u32) -> bool
    ensures { result ≡ activate_in_range cycle last }
{
    let next = activate_next(last);
    (last == 0) | (1 <= next) & (next <= cycle)
}

fn banks_in_range(cycle: u32, banks: &Banks) -> bool
    ensures { result ≡ every bank_places (λ b. activate_in_range cycle (get_or banks.now b 0)) }
{
    banks.iter().all(|last| activate_in_range(cycle, *last))
}

// What is pending is a sound request, due less than its delay after the next tick.
// Kept: five numbers side by side, as the definition of the same name takes them: its two calls differ in the delay, which is a field of the timing in both.
fn pending_in_range(classes: usize, ranks: u32, cycle: u32, delay: u32, pending: &Pending) -> bool
    ensures { result ≡ pending_in_range classes ranks cycle delay pending.now }
{
    (0..PENDING_PLACES).all(|after| {
        let at = ((cycle % PENDING_PLACES + after) % PENDING_PLACES) as usize;
        let word = pending[at];
        (word == 0) | (after < delay) & words::sound_word(classes, ranks, word)
    })
}

// What is in flight is in range at a cycle.
pub fn flight_in_range(classes: usize, timing: Timing, cycle: u32, flight: Flight) -> bool
    ensures { result ≡ flight_in_range classes timing cycle flight }
{
    let ranks = timing.ranks;
    activate_in_range(cycle, flight.last)
        & banks_in_range(cycle, &flight.banks)
        & pending_in_range(classes, ranks, cycle, timing.column, &flight.columns)
        & pending_in_range(classes, ranks, cycle, timing.response, &flight.responses)
}
