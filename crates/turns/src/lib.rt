// The turns: the epoch's length, each class's minimum, the caps that follow from them, and whose the home turns are.

#![tactic(auto)]

ghost use Rattle.std.specs.Prelude.{◌≡◌};
ghost use Rattle.turns.specs.Turns.{minimums_sum, turns_sound, minimums_above, cap_in, home_at};

fn minimums_sum(minimums: [u32; 16]) -> u64
    ensures { result ≡ minimums_sum minimums }
{
    minimums.iter().map(|m| u64::from(*m)).sum()
}

// 7: the epoch has 1 to 64 turns, and the minimums' sum is at most that.
#[tactic(auto, unfolding(crate::specs::Turns::turns_sound))]
pub fn turns_sound(epoch: u32, minimums: [u32; 16]) -> bool
    ensures { result ≡ turns_sound epoch minimums }
{
    (1..=64).contains(&epoch) & (minimums_sum(minimums) <= u64::from(epoch))
}

// The sum of the minimums of all classes strictly above a class.
fn minimums_above(rows: [u16; 16], minimums: [u32; 16], class: usize) -> u64
    ensures { result ≡ minimums_above rows minimums class }
{
    let mut total = 0u64;
    for j in 0..16 {
        if order::strictly_in(rows, class, j) {
            total += u64::from(minimums[j]);
        }
    }
    total
}

// A class's cap: the epoch's length less the minimums of all classes strictly above it, and 0 where they are more. What a number that is no class has is open in document 01: 0 here.
// Kept: `as`, which narrows: proved to lose nothing.
#[tactic(auto, unfolding(crate::specs::Turns::cap_in))]
pub fn cap_in(classes: usize, rows: [u16; 16], epoch: u32, minimums: [u32; 16], class: usize) -> u32
    ensures { result ≡ cap_in classes rows epoch minimums class }
{
    if !order::is_class(classes, class) {
        return 0;
    }
    u64::from(epoch).saturating_sub(minimums_above(rows, minimums, class)) as u32
}

// The class of the home turn with the given place among those of its epoch, from 0: class by class in rising number, each as often as its minimum. Where there are not so many, which document 02 leaves open, 16:
// no class.
// Kept: 16 and no Option: the clause is the number that the definition `home_at` gives, and a home turn, of which alone it is asked, has a class.
pub fn home_at(minimums: [u32; 16], place: u32) -> usize
    ensures { result ≡ home_at minimums place }
{
    let mut rest = place;
    for class in 0..16 {
        if rest < minimums[class] {
            return class;
        }
        rest -= minimums[class];
    }
    16
}
