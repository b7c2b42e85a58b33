// The policy file: a contents table, then the bodies of order, turns and timing.

#![tactic(auto)]

ghost use Rattle.std.specs.Prelude.{◌≡◌, ◌<◌, eqb};
ghost use Rattle.file.specs.File.{byte, word, entry_of, kind, start, body_size, kinds_fit, bodies_abut, contents_fit, lengths_fit, row_at, minimum_at, ranks_of, rank_gap_of, timing_of, held, reading_of, read_file};

use policy::Policy;
use refusals::Refusal;
use std::array;
use timing::Timing;

// The answer of reading a policy file: 0 and the policy, or the number that refuses the file and the policy of no classes, all zeros.
// Kept: a number beside a policy and no Result, since document 01 gives a policy with every answer, and the edit refused_file_has_a_class tries what is said of it on refusals.
#[derive(Clone, Copy)]
pub struct Reading {
    pub status: u32,
    pub policy: Policy,
}

// The bodies, in the order of their entries in the contents table.
#[derive(Clone, Copy)]
enum Body {
    Order,
    Turns,
    Timing,
}

// The byte at a place, and 0 past the end.
// Kept: one expression of the library's, here under the definition's name, and in `orders` and `script` under one of their own.
#[tactic(auto, unfolding(crate::specs::File::byte))]
fn byte(s: &[u8], at: usize) -> u8
    ensures { result ≡ byte s.now at }
{
    s.get(at).copied().unwrap_or(0)
}

// Two bytes, the low one first.
#[tactic(auto, unfolding(crate::specs::File::word))]
fn word(s: &[u8], at: usize) -> u16
    requires { at < 1000000 }
    ensures { result ≡ word s.now at }
{
    u16::from_le_bytes([byte(s, at), byte(s, at + 1)])
}

fn number(s: &[u8], at: usize) -> u32
    ensures { result ≡ byte s.now at }
{
    u32::from(byte(s, at))
}

// What the contents table says of a body: its kind, where it starts, and how long it is.
#[tactic(auto, unfolding(crate::specs::File::kind, crate::specs::File::entry_of))]
fn kind(s: &[u8], body: Body) -> u8
    ensures { result ≡ kind s.now (entry_of body) }
{
    byte(s, 1 + 5 * (body as usize))
}

#[tactic(auto, unfolding(crate::specs::File::start, crate::specs::File::entry_of))]
fn start(s: &[u8], body: Body) -> usize
    ensures value { result ≡ start s.now (entry_of body) }
    ensures small { result < 65536 }
{
    usize::from(word(s, 2 + 5 * (body as usize)))
}

#[tactic(auto, unfolding(crate::specs::File::body_size, crate::specs::File::entry_of))]
fn body_size(s: &[u8], body: Body) -> usize
    ensures value { result ≡ body_size s.now (entry_of body) }
    ensures small { result < 65536 }
{
    usize::from(word(s, 4 + 5 * (body as usize)))
}

// Each entry has its kind: 1 the order, 2 the turns, 3 the timing.
#[tactic(auto, unfolding(crate::specs::File::kinds_fit, crate::specs::File::entry_of))]
fn kinds_fit(s: &[u8]) -> bool
    ensures { result ≡ kinds_fit s.now }
{
    (byte(s, 0) == 3)
        & (kind(s, Body::Order) == 1)
        & (kind(s, Body::Turns) == 2)
        & (kind(s, Body::Timing) == 3)
}

// The bodies follow from byte 16, abutting, and the last ends the file.
#[tactic(auto, unfolding(crate::specs::File::bodies_abut, crate::specs::File::entry_of))]
fn bodies_abut(s: &[u8]) -> bool
    ensures { result ≡ bodies_abut s.now }
{
    let turns = start(s, Body::Turns);
    let timing = start(s, Body::Timing);
    (start(s, Body::Order) == 16)
        & (turns == 16 + body_size(s, Body::Order))
        & (timing == turns + body_size(s, Body::Turns))
        & (s.len() == timing + body_size(s, Body::Timing))
}

// 1: the file's size and its contents table.
#[tactic(auto, unfolding(crate::specs::File::contents_fit, timing::specs::Timing::within))]
fn contents_fit(s: &[u8]) -> bool
    ensures { result ≡ contents_fit s.now }
{
    (17..=65535).contains(&s.len()) & kinds_fit(s) & bodies_abut(s)
}

// 2: the class count, and the bodies' lengths against it.
#[tactic(auto, unfolding(crate::specs::File::lengths_fit, crate::specs::File::class_count, timing::specs::Timing::within, crate::specs::File::entry_of))]
fn lengths_fit(s: &[u8]) -> bool
    ensures { result ≡ lengths_fit s.now }
{
    let n = usize::from(byte(s, 16));
    (1..=16).contains(&n)
        & (body_size(s, Body::Order) == 1 + 2 * n)
        & (body_size(s, Body::Turns) == 1 + n)
        & (10..=11).contains(&body_size(s, Body::Timing))
}

#[tactic(auto, unfolding(crate::specs::File::row_at, crate::specs::File::class_count))]
fn row_at(s: &[u8], i: usize) -> u16
    ensures { result ≡ row_at s.now i }
{
    if i < usize::from(byte(s, 16)) {
        word(s, 17 + 2 * i)
    } else {
        0
    }
}

#[tactic(auto, unfolding(crate::specs::File::minimum_at, crate::specs::File::class_count, crate::specs::File::entry_of))]
fn minimum_at(s: &[u8], i: usize) -> u32
    ensures { result ≡ minimum_at s.now i }
{
    if i < usize::from(byte(s, 16)) {
        number(s, start(s, Body::Turns) + 1 + i)
    } else {
        0
    }
}

// The timing body has an eleventh byte: four ranks, and the gap between them. Without it there is one rank.
#[tactic(auto, unfolding(crate::specs::File::entry_of))]
fn has_rank_gap(s: &[u8]) -> bool
    ensures { result ≡ eqb (body_size s.now 2) 11 }
{
    body_size(s, Body::Timing) == 11
}

#[tactic(auto, unfolding(crate::specs::File::ranks_of))]
fn ranks_of(s: &[u8]) -> u32
    ensures { result ≡ ranks_of s.now }
{
    if has_rank_gap(s) { 4 } else { 1 }
}

#[tactic(auto, unfolding(crate::specs::File::rank_gap_of, crate::specs::File::entry_of))]
fn rank_gap_of(s: &[u8]) -> u32
    ensures { result ≡ rank_gap_of s.now }
{
    if has_rank_gap(s) {
        number(s, start(s, Body::Timing) + 10)
    } else {
        0
    }
}

#[tactic(auto, unfolding(crate::specs::File::timing_of, crate::specs::File::entry_of))]
fn timing_of(s: &[u8]) -> Timing
    ensures { result ≡ timing_of s.now }
{
    let at = start(s, Body::Timing);
    Timing {
        turn: number(s, at),
        dead: number(s, at + 1),
        gaps: [
            number(s, at + 2),
            number(s, at + 3),
            number(s, at + 4),
            number(s, at + 5),
        ],
        bank: [number(s, at + 6), number(s, at + 7)],
        column: number(s, at + 8),
        response: number(s, at + 9),
        ranks: ranks_of(s),
        rank: rank_gap_of(s),
    }
}

// The policy that the bodies hold.
fn held(s: &[u8]) -> Policy
    ensures { result ≡ held s.now }
{
    let classes = usize::from(byte(s, 16));
    let rows = array::from_fn(|i| row_at(s, i));
    let epoch = number(s, start(s, Body::Turns));
    let minimums = array::from_fn(|i| minimum_at(s, i));
    let timing = timing_of(s);
    policy::made(classes, rows, epoch, minimums, timing)
}

// The policy that the file holds, or what refuses it, the first of 1 to 8.
#[tactic(auto, unfolding(crate::specs::File::reading_of, crate::specs::File::read_file, crate::specs::File::refused_with, crate::specs::File::status, crate::specs::File::file_tests, policy::specs::Policy::first_failing, policy::specs::Policy::refusal, refusals::specs::Refusal::number, refusals::specs::Refusal::status_of))]
fn taken_policy(s: &[u8]) -> Result<Policy, Refusal>
    ensures { reading_of result ≡ read_file s.now }
{
    if !contents_fit(s) {
        return Err(Refusal::Contents);
    }
    if !lengths_fit(s) {
        return Err(Refusal::Lengths);
    }
    let policy = held(s);
    policy::refusal(policy)?;
    Ok(policy)
}

// Reads a policy file of any length and content: status 0 and the policy that it holds, or the first number of 1 to 8 that refuses it and the policy of no classes.
#[tactic(auto, unfolding(crate::specs::File::reading_of, crate::specs::File::refused_with))]
pub fn read(s: &[u8]) -> Reading
    ensures { result ≡ read_file s.now }
{
    match taken_policy(s) {
        Ok(policy) => Reading { status: 0, policy },
        Err(refusal) => Reading {
            status: refusal.number(),
            policy: policy::none(),
        },
    }
}
