// The waiting requests: how a class's queue is stored, as a ring, and what 13 refuses of the queues.

#![tactic(auto)]

ghost use Rattle.std.specs.Prelude.{◌≡◌, ◌%◌, ◌<◌};
ghost use Rattle.basics.specs.Below.{every};
ghost use Rattle.queues.specs.Waiting.{place, right_word, queue_in_range};

use requests::words;

// The places of a class's ring; and the array of a ring for each of the sixteen classes.
pub const RING_PLACES: usize = 8;

pub type Slots = [u32; 128];

// How many requests may pass a class's oldest while it is the oldest. Then it goes next.
pub const MOST_PASSED: usize = 15;

// The waiting requests, by their words: a ring of eight places for each class, at eight times the class.
// Kept: four lists, each with an entry or a ring for every class, are what the definitions head_of, length_of, passed_of and waiting_at read.
#[derive(Clone, Copy, PartialEq, Eq)]
pub struct Queues {
    pub slots: Slots,
    // The place of each class's oldest request in its ring.
    pub heads: [usize; 16],
    // How many requests of each class wait.
    pub lengths: [usize; 16],
    // How many requests of each class have passed its present oldest while that was the oldest.
    pub passed: [usize; 16],
}

// Where the k-th request from a class's oldest is stored. Of a number above 15, which is no class and of which document 01 says nothing, it is the ring of the number
// modulo 16.
#[tactic(auto, unfolding(crate::specs::Waiting::place))]
pub fn place(class: usize, head: usize, k: usize) -> usize
    ensures value { result ≡ place (class % 16) head k }
    ensures small { result < 128 }
{
    RING_PLACES * (class % 16) + (head % RING_PLACES + k % RING_PLACES) % RING_PLACES
}

// A stored word is that of a sound request of the class.
// Kept: class count and ranks side by side, here and below, as the definitions right_word and queue_in_range take them.
fn right_word(classes: usize, ranks: u32, class: usize, word: u32) -> bool
    ensures { result ≡ right_word classes ranks class word }
{
    let of = words::class_of(word) as usize;
    words::sound_word(classes, ranks, word) & (of == class)
}

// A class's queue is in range: its length, its head, every waiting request in its ring, and how many have passed its oldest. A ring is gone over only where length and head fit.
// Kept: that a class is below 16 is asked, as in `scheduler`.
#[tactic(auto, unfolding(crate::specs::Waiting::place))]
fn queue_in_range(classes: usize, ranks: u32, queues: &Queues, class: usize) -> bool
    requires { class < 16 }
    ensures { result ≡ queue_in_range classes ranks queues.now class }
{
    let head = queues.heads[class];
    let length = queues.lengths[class];
    let fits = (length <= RING_PLACES) & (head < RING_PLACES);
    fits && (0..RING_PLACES).all(|k| {
        (length <= k) | right_word(classes, ranks, class, queues.slots[place(class, head, k)])
    }) & (queues.passed[class] <= MOST_PASSED)
}

// Every class's queue is in range.
pub fn queues_in_range(classes: usize, ranks: u32, queues: &Queues) -> bool
    ensures { result ≡ every 16 (queue_in_range classes ranks queues.now) }
{
    (0..16).all(|class| queue_in_range(classes, ranks, queues, class))
}
