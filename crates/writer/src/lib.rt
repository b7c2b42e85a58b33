// A policy written as a file: what `file::read` reads.

#![tactic(auto)]

ghost use Rattle.std.specs.Prelude.{◌≡◌, true, ◌++◌, ◌≤◌, length, get_or, drop};
ghost use Rattle.policy.specs.Policy.{in_range};
ghost use Rattle.writer.specs.Written.{timing_size, file_size, contents, half_of, order_byte, turns_byte, timing_bytes, file_byte, file_of, written_of, writing, out_after};

use policy::Policy;
use refusals::Refusal;
use timing::Timing;

// How many bytes the timing body has: the eleventh is the gap between ranks, where there are several.
#[tactic(auto, unfolding(crate::specs::Written::timing_size))]
fn timing_size(t: Timing) -> usize
    ensures value { result ≡ timing_size t }
    ensures few { result ≤ 11 }
{
    if t.ranks == 4 { 11 } else { 10 }
}

// Kept: that there are at most 16 classes is asked here and by the three functions below that place bytes, and is no invariant of Policy: a policy of any numbers may be handed in, and
// `write` turns it down with 13 (`write_status` in specs/Written.antt).
#[tactic(auto, unfolding(crate::specs::Written::file_size))]
fn file_size(p: Policy) -> usize
    requires { p.classes ≤ 16 }
    ensures { result ≡ file_size p }
{
    let timing = p.timing;
    18 + 3 * p.classes + timing_size(timing)
}

// The contents table: where each body starts, and how long it is.
// Kept: `as`, here and below, which narrows: proved to lose nothing.
fn contents_byte(p: Policy, k: usize) -> u32
    requires { p.classes ≤ 16 }
    ensures { result ≡ get_or (contents p.classes (timing_size p.timing)) k 0 }
{
    let n = p.classes as u32;
    let timing = p.timing;
    let size = timing_size(timing) as u32;
    let table = [
        3,
        1,
        16,
        0,
        1 + 2 * n,
        0,
        2,
        17 + 2 * n,
        0,
        1 + n,
        0,
        3,
        18 + 3 * n,
        0,
        size,
        0,
    ];
    table.get(k).copied().unwrap_or(0)
}

// Half of a row: 0 the low one, 1 the high one.
// Kept: 0 and 1 for the halves, as the definition half_of takes them.
#[tactic(auto, unfolding(crate::specs::Written::half_of))]
fn half_of(row: u16, half: usize) -> u32
    ensures { result ≡ half_of row half }
{
    let [low, high] = row.to_le_bytes();
    u32::from(if half == 0 { low } else { high })
}

#[tactic(auto, unfolding(crate::specs::Written::order_byte))]
fn order_byte(p: Policy, k: usize) -> u32
    requires { p.classes ≤ 16 }
    ensures { result ≡ order_byte p k }
{
    if k == 0 {
        return p.classes as u32;
    }
    let rows = p.rows;
    half_of(order::of_class(rows, (k - 1) / 2, 0), (k - 1) % 2)
}

#[tactic(auto, unfolding(crate::specs::Written::turns_byte, policy::specs::Policy::minimum))]
fn turns_byte(p: Policy, k: usize) -> u32
    ensures { result ≡ turns_byte p k }
{
    if k == 0 {
        return p.epoch;
    }
    let minimums = p.minimums;
    order::of_class(minimums, k - 1, 0)
}

fn timing_byte(t: Timing, k: usize) -> u32
    ensures { result ≡ get_or (timing_bytes t) k 0 }
{
    let gaps = t.gaps;
    let bank = t.bank;
    let table = [
        t.turn, t.dead, gaps[0], gaps[1], gaps[2], gaps[3], bank[0], bank[1], t.column, t.response,
        t.rank,
    ];
    table.get(k).copied().unwrap_or(0)
}

// The byte at a place of the file.
#[tactic(auto, unfolding(crate::specs::Written::file_byte))]
fn file_byte(p: Policy, k: usize) -> u32
    requires { p.classes ≤ 16 }
    ensures { result ≡ file_byte p k }
{
    let turns = 17 + 2 * p.classes;
    let timing = 18 + 3 * p.classes;
    if k < 16 {
        contents_byte(p, k)
    } else if k < turns {
        order_byte(p, k - 16)
    } else if k < timing {
        turns_byte(p, k - turns)
    } else {
        let body = p.timing;
        timing_byte(body, k - timing)
    }
}

fn fill(p: Policy, size: usize, out: &mut [u8])
    requires p_value { in_range p ≡ true }
    requires size_value { (size ≡ file_size p) × (size ≤ length out.old) }
    ensures { out.new ≡ file_of p ++ drop (file_size p) out.old }
{
    for k in 0..size {
        out[k] = file_byte(p, k) as u8;
    }
}

// Writes the file of a policy to the start of `out`, and answers how many bytes it has. A policy out of range is turned down with 13, and too little room with 16; then nothing is
// written.
#[tactic(auto, unfolding(crate::specs::Written::write_status, crate::specs::Written::written_of, crate::specs::Written::writing, crate::specs::Written::out_after, refusals::specs::Refusal::number))]
pub fn write(p: Policy, out: &mut [u8]) -> Result<usize, Refusal>
    ensures value { written_of result ≡ writing p out.old }
    ensures out_after { out.new ≡ out_after p out.old }
{
    if !policy::in_range(p) {
        return Err(Refusal::OutOfRange);
    }
    let size = file_size(p);
    if out.len() < size {
        return Err(Refusal::Room);
    }
    fill(p, size, out);
    Ok(size)
}
