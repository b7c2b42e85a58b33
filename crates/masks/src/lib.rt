// Masks: a set of classes as a 16-bit number, bit i standing for class i, as in a row of the order.

#![tactic(auto)]

ghost use Rattle.std.specs.Prelude.{◌≡◌};
ghost use Rattle.masks.specs.Mask.{member, includes, difference, size, nth, class_mask, below_mask};

// W-205: the masks of the classes. Entry i holds bit i alone (`BitAlone` in specs/Tables.antt).
const CLASS_MASKS: [u16; 16] = [
    0x0001, 0x0002, 0x0004, 0x0008, 0x0010, 0x0020, 0x0040, 0x0080, 0x0100, 0x0200, 0x0400, 0x0800,
    0x1000, 0x2000, 0x4000, 0x8000,
];

// W-205: the masks of all classes below a number. Entry i is that of number i + 1: it holds bits 0 to i and no other (`BitsBelow`).
const BELOW_MASKS: [u16; 16] = [
    0x0001, 0x0003, 0x0007, 0x000F, 0x001F, 0x003F, 0x007F, 0x00FF, 0x01FF, 0x03FF, 0x07FF, 0x0FFF,
    0x1FFF, 0x3FFF, 0x7FFF, 0xFFFF,
];

// The mask of a class: its bit alone. There are classes 0 to 15; what a greater number gives is open in document 01, and it is the empty set here.
pub fn class_mask(class: usize) -> u16
    ensures { result ≡ class_mask class }
{
    CLASS_MASKS.get(class).copied().unwrap_or(0)
}

// The mask of all classes below a number of 1 to 16. What other numbers give is open in document 01: here 0 gives the empty set, and a number above 16 all sixteen.
pub fn below_mask(number: usize) -> u16
    ensures { result ≡ below_mask number }
{
    if number == 0 {
        0
    } else {
        BELOW_MASKS[number.min(16) - 1]
    }
}

// Whether the class is in the set. A number above 15, of which document 01 says nothing, is in none.
#[tactic(auto, using(crate::proofs::Masks::no_member), unfolding(crate::specs::Mask::member))]
pub fn has(set: u16, class: usize) -> bool
    ensures { result ≡ member set class }
{
    class < 16 && (set >> class) % 2 == 1
}

// Whether every class of `part` is in the set.
#[tactic(auto, using(crate::proofs::Masks::or_includes))]
pub fn includes(set: u16, part: u16) -> bool
    ensures { result ≡ includes set part }
{
    (set | part) == set
}

// The classes of the set that are not in `part`.
#[tactic(auto, using(crate::proofs::Masks::without_is))]
pub fn without(set: u16, part: u16) -> u16
    ensures { result ≡ difference set part }
{
    set & !part
}

// How many classes are in the set.
#[tactic(auto, using(crate::proofs::Masks::size_is))]
pub fn size(set: u16) -> usize
    ensures { result ≡ size set }
{
    set.count_ones() as usize
}

// The class with the given number in the set, numbered from 1 by rising class number. Where there is none, which document 01 leaves open, 16: no class.
// Kept: 16 and no Option: the clause is the number that the definition `nth` gives, and the two walks, which have shown that there is one, would take an Option apart at each class.
pub fn nth(set: u16, number: usize) -> usize
    ensures { result ≡ nth set number }
{
    let mut n = 0;
    for i in 0..16 {
        if has(set, i) {
            n += 1;
            if n == number {
                return i;
            }
        }
    }
    16
}
