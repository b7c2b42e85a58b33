// The traversal: which class owns a turn. Document 01: the walk.
// Kept: lengths, turns left, pointers and count are lent apart, and that there are sixteen pointers and that the covers climb (`Climbs`) is asked: the walk changes the last two while it reads the others, and what the two functions promise of each other speaks of just these.

ghost use Rattle.std.specs.Prelude.{◌≡◌, ◌+◌, ◌<◌, length, get_or};
ghost use Rattle.order.specs.Order.{above_in};
ghost use Rattle.rules.specs.Traversal.{candidates, passed_at, named, also_tried, try_class};
ghost use Rattle.rules.specs.Climb.{Climbs};
ghost use Rattle.scheduler.specs.InPlace.{reached_of};

use policy::Policy;

// A class is tried, and counted: it takes the turn, and its pointer stays, or it passes the turn on. The recursion falls by the classes above, as the policy's rows have them. (The count is lent, so that nothing is left to do
// after the call for the next class, and the two are compiled to a loop.)
#[cycle(ascend_try_class)]
pub(crate) fn try_class(
    p: &Policy,
    lengths: &[usize; 16],
    left: &[u32; 16],
    pointers: &mut [usize; 16],
    tried: &mut u32,
    class: usize,
) -> usize
    requires { Climbs p.now.rows p.now.covers × (class < 16) × (length pointers.old ≡ 16)
        × (tried.old + above_in p.now.rows class < 17) }
    ensures { reached_of result pointers.new tried.new ≡ also_tried tried.old
        (try_class 16 (candidates p.now.covers lengths.now left.now) pointers.old class) }
{
    *tried += 1;
    if decisions::takes(p.covers[class], lengths[class], left[class]) {
        return class;
    }
    ascend(p, lengths, left, pointers, tried, class)
}

// The turn ascends: the class's pointer moves, and the cover that it then names is tried.
#[cycle(ascend_try_class)]
fn ascend(
    p: &Policy,
    lengths: &[usize; 16],
    left: &[u32; 16],
    pointers: &mut [usize; 16],
    tried: &mut u32,
    class: usize,
) -> usize
    requires { Climbs p.now.rows p.now.covers × (class < 16) × (length pointers.old ≡ 16)
        × (tried.old + above_in p.now.rows class < 18) × (get_or p.now.covers class 0 ≡ 0 → ⊥) }
    ensures { reached_of result pointers.new tried.new ≡ also_tried tried.old
        (try_class 16 (candidates p.now.covers lengths.now left.now)
        (passed_at p.now.covers pointers.old class) (named p.now.covers pointers.old class)) }
{
    let pointer = decisions::moved(p.covers[class], pointers[class]);
    pointers[class] = pointer;
    let next = masks::nth(p.covers[class], pointer);
    try_class(p, lengths, left, pointers, tried, next)
}
