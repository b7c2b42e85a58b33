// W-208: each legal order of one to four classes, as a policy that is fetched by its place.

#![tactic(auto)]

ghost use Rattle.std.specs.Prelude.{◌≡◌, cond, ◌≤◌, ◌+◌, ltb, get_or};
ghost use Rattle.basics.specs.Below.{list_of};
ghost use Rattle.file.specs.File.{byte};
ghost use Rattle.refusals.specs.Refusal.{status_of};
ghost use Rattle.orders.specs.Listed.{count_of, first_of, small_orders, digit_of, row_at, body_timing, policy_at, fetch_status, fetched};

use policy::Policy;
use refusals::Refusal;
use std::array;
use timing::Timing;

// The orders of one class, of two, of three and of four: each by rising value of its rows, of which each is a hexadecimal digit, row 0 first. They are the legal ones, all of them
// (`EveryOrder` in specs/EveryOrder.antt).
const SMALL_ORDERS: [u16; 88] = [
    0x1, 0x13, 0x32, 0x127, 0x137, 0x174, 0x175, 0x327, 0x574, 0x724, 0x726, 0x764, 0x124F, 0x125F,
    0x126F, 0x127F, 0x12F8, 0x12F9, 0x12FA, 0x12FB, 0x134F, 0x135F, 0x137F, 0x13F8, 0x13F9, 0x13FB,
    0x164F, 0x174F, 0x175F, 0x1AF8, 0x1BF8, 0x1BF9, 0x1F48, 0x1F49, 0x1F4C, 0x1F4D, 0x1F58, 0x1F59,
    0x1F5D, 0x1FC8, 0x1FD8, 0x1FD9, 0x324F, 0x326F, 0x327F, 0x32F8, 0x32FA, 0x32FB, 0x524F, 0x564F,
    0x574F, 0x5F48, 0x5F4C, 0x5F4D, 0x724F, 0x726F, 0x764F, 0x92F8, 0x9AF8, 0x9BF8, 0x9F48, 0x9FC8,
    0x9FD8, 0xB2F8, 0xB2FA, 0xBAF8, 0xDF48, 0xDF4C, 0xDFC8, 0xF248, 0xF24A, 0xF24C, 0xF24E, 0xF268,
    0xF26A, 0xF26E, 0xF2C8, 0xF2E8, 0xF2EA, 0xF648, 0xF64C, 0xF64E, 0xFA48, 0xFAC8, 0xFAE8, 0xFE48,
    0xFE4C, 0xFEC8,
];

// Where the orders of so many classes begin among them all, and how many there are.
// Kept: two numbers and no part of the table: the definitions first_of and count_of give them, and a place is told past the last by the second alone.
#[derive(Clone, Copy)]
struct Listing {
    first: u32,
    count: u32,
}

// The answer of fetching an order: 0 and its policy, or the number that refuses it and the policy of no classes; which, with 0, also stands for a place past the last.
// Kept: a struct and no Result, since a policy stands beside every number: the policy of no classes beside a refusal's, and beside 0 where the place is past the last (W-208), as the
// theorems Fetches and HandedBack of specs/Policies.antt and their edits have it.
#[derive(Clone, Copy)]
pub struct Fetched {
    pub status: u32,
    pub policy: Policy,
}

#[tactic(auto, unfolding(crate::specs::Listed::count_of, crate::specs::Listed::first_of))]
fn listing_of(n: u32) -> Listing
    ensures first { result.first ≡ first_of n }
    ensures count { result.count ≡ count_of n }
{
    match n {
        1 => Listing { first: 0, count: 1 },
        2 => Listing { first: 1, count: 2 },
        3 => Listing { first: 3, count: 9 },
        4 => Listing {
            first: 12,
            count: 76,
        },
        _ => Listing { first: 0, count: 0 },
    }
}

fn order_at(n: u32, place: u32) -> u16
    ensures { result ≡ get_or small_orders (first_of n + place) 0 }
{
    let at = listing_of(n).first as usize + place as usize;
    SMALL_ORDERS.get(at).copied().unwrap_or(0)
}

// Row i of an order: its digit, and 0 for a number that is no class.
// Kept: that n is at most 4 is asked here, where a digit is shifted down, and by the two functions above it on the way from `fetch`; a type for a class count of 1 to 4 would be made
// and opened again at each of them.
#[tactic(auto, unfolding(crate::specs::Listed::digit_of))]
fn row_of(n: usize, order: u16, i: usize) -> u16
    requires { n ≤ 4 }
    ensures { result ≡ cond (ltb i n) (digit_of n order i) 0 }
{
    if i < n {
        (order >> (4 * (n - 1 - i))) % 16
    } else {
        0
    }
}

fn rows_at(n: u32, place: u32) -> [u16; 16]
    requires { n ≤ 4 }
    ensures { result ≡ list_of 16 (λ i. cond (ltb i n) (row_at n place i) 0) }
{
    let order = order_at(n, place);
    let classes = n as usize;
    array::from_fn(|i| row_of(classes, order, i))
}

// A number of the timing body: a byte, and 0 past its end.
// Kept: one expression of the library's under a name, as in `file`.
#[tactic(auto, unfolding(file::specs::File::byte))]
fn number(body: &[u8], at: usize) -> u32
    ensures { result ≡ byte body.now at }
{
    u32::from(body.get(at).copied().unwrap_or(0))
}

// The timing that a timing body holds: four ranks and the gap between them where it has an eleventh byte, and one rank and no gap without it.
// Kept: apart from file's timing_of, which goes by the contents table: there the body's length is a number of the file and its bytes end where the file does, so that one function for
// both would take a length beside the slice.
#[tactic(auto, unfolding(crate::specs::Listed::body_timing, file::specs::Taken::timing_from))]
fn body_timing(body: &[u8]) -> Timing
    ensures { result ≡ body_timing body.now }
{
    let (ranks, rank) = if body.len() == 11 {
        (4, number(body, 10))
    } else {
        (1, 0)
    };
    Timing {
        turn: number(body, 0),
        dead: number(body, 1),
        gaps: [
            number(body, 2),
            number(body, 3),
            number(body, 4),
            number(body, 5),
        ],
        bank: [number(body, 6), number(body, 7)],
        column: number(body, 8),
        response: number(body, 9),
        ranks,
        rank,
    }
}

// 20 for the class count, asked first; then 2 for the timing body's length and 8 for its numbers.
#[tactic(auto, unfolding(crate::specs::Listed::fetch_status, crate::specs::Listed::few, timing::specs::Timing::within, refusals::specs::Refusal::status_of, refusals::specs::Refusal::number))]
fn refusal(n: u32, body: &[u8]) -> Result<(), Refusal>
    ensures value { status_of result ≡ fetch_status n body.now }
    ensures few { status_of result ≡ 0 → n ≤ 4 }
{
    if !(1..=4).contains(&n) {
        return Err(Refusal::SmallOrder);
    }
    if !(10..=11).contains(&body.len()) {
        return Err(Refusal::Lengths);
    }
    if !timing::timing_sound(body_timing(body)) {
        return Err(Refusal::Timing);
    }
    Ok(())
}

// The policy of the order at a place: E = 4, minimums 0 and the timing of the body.
fn policy_at(n: u32, place: u32, body: &[u8]) -> Policy
    requires { n ≤ 4 }
    ensures { result ≡ policy_at n place body.now }
{
    let rows = rows_at(n, place);
    let timing = body_timing(body);
    policy::made(n as usize, rows, 4, [0u32; 16], timing)
}

// The order of n classes, 1 to 4, at a place from 0, as a policy with E = 4, minimums 0 and the timing of a timing body of ten or eleven bytes. Status 20 for another n, then 2 for
// a body of another length, 8 for a number of it out of range; a refusal gives the policy of no classes, and so, with status 0, does a place past the last.
#[tactic(auto, unfolding(crate::specs::Listed::fetched))]
pub fn fetch(n: u32, place: u32, body: &[u8]) -> Fetched
    ensures { result ≡ fetched n place body.now }
{
    let status = refusals::status_of(refusal(n, body));
    let policy = if (status == 0) & (place < listing_of(n).count) {
        policy_at(n, place, body)
    } else {
        policy::none()
    };
    Fetched { status, policy }
}
