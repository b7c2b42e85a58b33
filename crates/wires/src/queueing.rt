// The queues, worked on in place: each class has a ring of eight places.

ghost use Rattle.std.specs.Prelude.{◌≡◌, ◌<◌, slice_index};
ghost use Rattle.rules.specs.Queue.{enqueue, closed_up, passed_after, dequeue};
ghost use Rattle.requests.specs.Sizes.{ring_places, most_passed};

use queues::{Queues, RING_PLACES, Slots};

// Puts a word at the end of a class's queue, which is not full.
pub(crate) fn enqueue(queues: &mut Queues, class: usize, word: u32)
    requires { (class < 16) × (slice_index queues.old.lengths class < ring_places) }
    ensures { queues.new ≡ enqueue queues.old class word }
{
    let place = queues::place(class, queues.heads[class], queues.lengths[class]);
    queues.slots[place] = word;
    queues.lengths[class] += 1;
}

// Moves the k oldest requests of a class by one place each, the youngest of them first, into the place of the k-th, which leaves.
fn close_up(slots: &mut Slots, class: usize, head: usize, k: usize)
    requires { class < 16 }
    ensures { slots.new ≡ closed_up slots.old class head k }
{
    for older in (0..k).rev() {
        let from = queues::place(class, head, older);
        let to = queues::place(class, head, older + 1);
        slots[to] = slots[from];
    }
}

// How many have passed the oldest, once the k-th from it has gone.
fn passed_after(k: usize, passed: usize) -> usize
    requires { 0 < k → passed < most_passed }
    ensures { result ≡ passed_after k passed }
{
    if k == 0 { 0 } else { passed + 1 }
}

// Takes the k-th request from the oldest out of a class's queue, which is not empty.
pub(crate) fn dequeue(queues: &mut Queues, class: usize, k: usize)
    requires { (class < 16) × (0 < slice_index queues.old.lengths class) × (0 < k → slice_index queues.old.passed class < most_passed) }
    ensures { queues.new ≡ dequeue queues.old class k }
{
    let head = queues.heads[class];
    close_up(&mut queues.slots, class, head, k);
    queues.heads[class] = (head % RING_PLACES + 1) % RING_PLACES;
    queues.lengths[class] -= 1;
    queues.passed[class] = passed_after(k, queues.passed[class]);
}
