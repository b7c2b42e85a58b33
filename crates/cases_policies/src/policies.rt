// Policy files: what reading one answers. Stored policies: those that files give, with numbers of them changed, whether they are in range, and how long their walks are.

use super::Case;
use file::Reading;
use policy::Policy;
use script::List;
use std::io;

// What reading a list's numbers as the bytes of a file answers.
// Kept: two lines, as in cases_calls and cases_orders: `script` would rest on `file` for them.
pub(crate) fn reading(file: &List) -> Reading {
    let bytes = file.bytes::<160>();
    file::read(&bytes[..file.count.min(160)])
}

// The answer of reading a file, and the line's end.
pub(crate) fn read(rt: &impl Print, file: &List) -> io::Result<()> {
    script::spaced(rt, reading(file).status)?;
    rt.write_all(b"\n")
}

// The file with one byte changed: PLACE BYTE.
pub(crate) fn with(rt: &impl Print, c: &Case) -> io::Result<()> {
    let place = c.script.own.get(0) as usize;
    let mut file = c.file;
    if place < 160 {
        file.at[place] = c.script.own.get(1);
    }
    read(rt, &file)
}

// The file cut to a length: LENGTH.
pub(crate) fn cut(rt: &impl Print, c: &Case) -> io::Result<()> {
    let mut file = c.file;
    file.count = c.script.own.get(0) as usize;
    read(rt, &file)
}

// A policy with one number changed. Number of classes, Row, Epoch, Minimum, Board (how many ranks there are), Gap (the rank gap), Cover, Turns (a class's cap).
// Kept: cases_calls changes other numbers of a policy than these, and the letters of those change nothing here.
fn with_number(p: Policy, field: u8, at: usize, to: u32) -> Policy {
    let mut policy = p;
    match field {
        b'B' => policy.timing.ranks = to,
        b'G' => policy.timing.rank = to,
        b'N' if at < 16 => policy.classes = to as usize,
        b'R' if at < 16 => policy.rows[at] = (to % 65536) as u16,
        b'E' if at < 16 => policy.epoch = to,
        b'M' if at < 16 => policy.minimums[at] = to,
        b'C' if at < 16 => policy.covers[at] = (to % 65536) as u16,
        b'T' if at < 16 => policy.caps[at] = to,
        _ => {}
    }
    policy
}

// A policy with the changes that stand in a list from an index on: of each the field's first letter, a place in it, and the number that is to stand there.
// Kept: a loop, as in cases_calls, over other fields.
pub(crate) fn changed(p: Policy, list: &List, from: usize) -> Policy {
    let mut policy = p;
    for change in list.changes(from) {
        let [field, place, to] = *change;
        policy = with_number(policy, (field % 256) as u8, place as usize, to);
    }
    policy
}

// Whether a policy is in range.
pub(crate) fn in_range(rt: &impl Print, c: &Case) -> io::Result<()> {
    if policy::in_range(c.policy) {
        rt.write_all(b" yes\n")
    } else {
        rt.write_all(b" no\n")
    }
}

// How many classes a walk from the case's class tries at most, the status first: CLASS. A refused file gives its number, and 0.
pub(crate) fn longest(rt: &impl Print, c: &Case) -> io::Result<()> {
    let refused = reading(&c.file).status;
    if refused != 0 {
        script::spaced(rt, refused)?;
        script::spaced(rt, 0)?;
    } else {
        let bound = policy::walk_bound(c.policy, c.script.own.get(0));
        script::spaced(rt, refusals::status_of(bound))?;
        script::spaced(rt, bound.unwrap_or(0))?;
    }
    rt.write_all(b"\n")
}
