// The masks of W-205: of a class, and of all classes below a number.

use super::Case;
use std::io;

// A mask, as a number, and the line's end.
fn mask(rt: &impl Print, set: u16) -> io::Result<()> {
    script::spaced(rt, set)?;
    rt.write_all(b"\n")
}

// The mask of a class: CLASS.
pub(crate) fn alone(rt: &impl Print, c: &Case) -> io::Result<()> {
    mask(rt, masks::class_mask(c.script.own.get(0) as usize))
}

// The mask of all classes below a number: NUMBER.
pub(crate) fn below(rt: &impl Print, c: &Case) -> io::Result<()> {
    mask(rt, masks::below_mask(c.script.own.get(0) as usize))
}
