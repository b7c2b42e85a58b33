// The lookahead: whether the owner's dead time is elided, before a turn that is no home turn. Document 01: the trial walk.

ghost use Rattle.std.specs.Prelude.{◌≡◌, ◌<◌};
ghost use Rattle.rules.specs.Lookahead.{looking_ahead, reaches};
ghost use Rattle.rules.specs.Climb.{Climbs};

use policy::Policy;

// Whether the lookahead, from a class on, reaches the owner, where so many turns are left. The pointers stay as they are.
pub(crate) fn reaches(
    p: &Policy,
    left: &[u32; 16],
    pointers: &[usize; 16],
    owner: usize,
    from: usize,
) -> bool
    requires { Climbs p.now.rows p.now.covers × (from < 16) }
    ensures { result
        ≡ reaches 16 (looking_ahead p.now.rows p.now.covers left.now pointers.now) owner from }
{
    let mut class = from;
    // Kept: a `while`, since what it goes over is no range: it goes from class to class.
    while class != owner {
        let flows = masks::has(p.rows[class], owner);
        let spent = left[class] == 0;
        if !(flows & spent) {
            return false;
        }
        let pointer = decisions::moved(p.covers[class], pointers[class]);
        class = masks::nth(p.covers[class], pointer);
    }
    true
}
