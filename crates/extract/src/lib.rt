// The extract: what of a log may be seen by a class, or by a set of classes (W-211).

#![tactic(auto)]

ghost use Rattle.std.specs.Prelude.{◌≡◌, true, ◌++◌, ◌+◌, ◌*◌, ◌≤◌, length, get_or, drop};
ghost use Rattle.std.proofs.lemmas.List.Edits.{sets};
ghost use Rattle.basics.specs.Below.{set_of};
ghost use Rattle.masks.specs.Mask.{member};
ghost use Rattle.requests.specs.Trace.{call_of};
ghost use Rattle.extract.specs.Seen.{seen_by_any, stays, staying};
ghost use Rattle.extract.specs.Extract.{are_classes, hide_word, hide_turn, line_seen, line_seen_at, extract_of, extracted_of, seen_answer, seen_out, extract, out_after, extract_set, out_after_set};

use policy::Policy;
use refusals::Refusal;
use requests::{Call, words};

// Whether the class is in a set of 32 bits, bit c for class c. A number above 31 is in none.
// Kept: beside masks::has, which asks 16 bits. A set that is asked for has 32, since 9 refuses a bit above 15; one `has` of an `impl Into<u32>` for both widths would widen each set that
// the scheduler asks, and be no plainer.
fn in_set(set: u32, class: usize) -> bool
    ensures { result ≡ member set class }
{
    class < 32 && (set >> class) % 2 == 1
}

// Whether every member of the set is a class of the policy.
fn are_classes(p: Policy, set: u32) -> bool
    ensures { result ≡ are_classes p set }
{
    (0..32).all(|c| !in_set(set, c) | order::is_class(p.classes, c))
}

// Whether a class may flow to a member of the set.
fn flows_to_any(p: Policy, class: usize, set: u32) -> bool
    ensures { result ≡ seen_by_any p set class }
{
    (0..16).any(|l| in_set(set, l) & policy::flows(p, class, l))
}

// The classes that may flow to a member of the set, as a set.
#[tactic(auto, using(crate::proofs::Masked::masked))]
fn seen_by(p: Policy, set: u32) -> u16
    ensures { result ≡ set_of 16 (seen_by_any p set) }
{
    let mut seen = 0u16;
    for c in 0..16 {
        if flows_to_any(p, c, set) {
            seen += masks::class_mask(c);
        }
    }
    seen
}

// Whether a trace number stays.
#[tactic(auto, unfolding(crate::specs::Seen::call_stays, crate::specs::Seen::stays))]
fn stays(seen: u16, word: u32) -> bool
    ensures { result ≡ stays (member seen) word }
{
    match requests::call_of(word) {
        Call::Tick => true,
        Call::Offer(r) => masks::has(seen, r.class as usize),
        Call::Malformed => false,
    }
}

// A command or response as it may be seen.
#[tactic(auto, unfolding(crate::specs::Extract::hide_word))]
fn hide_word(seen: u16, word: u32) -> u32
    ensures { result ≡ hide_word (member seen) word }
{
    if masks::has(seen, words::class_of(word) as usize) {
        word
    } else {
        0
    }
}

// A turn number as it may be seen.
#[tactic(auto, unfolding(crate::specs::Extract::owner_seen, crate::specs::Extract::hide_turn))]
fn hide_turn(seen: u16, turn: u32) -> u32
    ensures { result ≡ hide_turn (member seen) turn }
{
    if turn == 0 {
        return 0;
    }
    let named = (turn % 256) as usize;
    if named != 0 && masks::has(seen, named - 1) {
        turn
    } else {
        512
    }
}

// How many numbers of the trace stay.
// Kept: a loop that adds. With a filter that counts, an extract of ticks takes an eighth more instructions (67 a number, with the loop 60), and with a sum of zeros and ones an extract of malformed
// words takes a third more time.
fn kept(seen: u16, trace: &[u32]) -> usize
    ensures value { result ≡ length (staying (member seen) trace.now) }
    ensures bound { result ≤ length trace.now }
{
    let mut n = 0;
    for word in trace {
        if stays(seen, *word) {
            n += 1;
        }
    }
    n
}

// What may be seen of the four log numbers of a trace number that stays.
fn shown(seen: u16, word: u32, line: [u32; 4]) -> [u32; 4]
    requires { stays (member seen) word ≡ true }
    ensures { result ≡ line_seen (member seen) (call_of word) (get_or line 0 0) (get_or line 1 0) (get_or line 2 0) (get_or line 3 0) }
{
    if word != 0 {
        return line;
    }
    let [status, command, response, turn] = line;
    [
        status,
        hide_word(seen, command),
        hide_word(seen, response),
        hide_turn(seen, turn),
    ]
}

// Puts four numbers into `out` from `at` on.
fn put(line: [u32; 4], out: &mut [u32], at: usize)
    requires { at + 4 ≤ length out.old }
    ensures { out.new ≡ sets out.old at line }
{
    out[at..at + 4].copy_from_slice(&line);
}

// Puts what may be seen of a trace number's four log numbers, which stand from `from` on, into `out` from `at` on. Answers where it ends.
fn put_call(seen: u16, word: u32, log: &[u32], from: usize, out: &mut [u32], at: usize) -> usize
    requires { (from + 4 ≤ length log.now) × (at + length (line_seen_at (member seen) word log.now from) ≤ length out.old) }
    ensures value { result ≡ at + length (line_seen_at (member seen) word log.now from) }
    ensures out_after { out.new ≡ sets out.old at (line_seen_at (member seen) word log.now from) }
{
    if stays(seen, word) {
        let line = [log[from], log[from + 1], log[from + 2], log[from + 3]];
        put(shown(seen, word, line), out, at);
        return at + 4;
    }
    at
}

// Writes what may be seen of the log to the start of `out`, which has room for it.
// Kept: trace and log side by side: of what they have in common only this function asks, and what is written goes on from place to place, as `recordings::put`.
fn write(seen: u16, trace: &[u32], log: &[u32], out: &mut [u32])
    requires { (length log.now ≡ 4 * length trace.now) × (length (extract_of (member seen) trace.now log.now) ≤ length out.old) }
    ensures { out.new ≡ extract_of (member seen) trace.now log.now ++ drop (length (extract_of (member seen) trace.now log.now)) out.old }
{
    let mut at = 0;
    for i in 0..trace.len() {
        at = put_call(seen, trace[i], log, 4 * i, out, at);
    }
}

// Writes what is left of the log of a trace, where the classes in `seen` may be seen, to the start of `out`, and answers how many numbers that is; or what refuses it, in document
// 01's order. `named` says whether it was asked for classes of the policy.
// Kept: a flag, as the definition seen_answer takes it.
#[tactic(auto, using(crate::proofs::Laws::four_each), unfolding(crate::specs::Extract::seen_status, crate::specs::Extract::seen_answer, crate::specs::Extract::seen_out, crate::specs::Extract::extracted_of, refusals::specs::Refusal::number))]
fn extract_seen(
    p: Policy,
    named: bool,
    seen: u16,
    trace: &[u32],
    log: &[u32],
    out: &mut [u32],
) -> Result<usize, Refusal>
    ensures value { extracted_of result ≡ seen_answer p named (member seen) trace.now log.now out.old }
    ensures out_after { out.new ≡ seen_out p named (member seen) trace.now log.now out.old }
{
    if !policy::in_range(p) {
        return Err(Refusal::OutOfRange);
    }
    if !named {
        return Err(Refusal::Class);
    }
    if log.len() != 4 * trace.len() {
        return Err(Refusal::LogLength);
    }
    let count = 4 * kept(seen, trace);
    if out.len() < count {
        return Err(Refusal::Room);
    }
    write(seen, trace, log, out);
    Ok(count)
}

// Writes what class `class` may see of the log of a trace to the start of `out`, and answers how many numbers that is. Of a log that no run wrote, which document 01 leaves
// open, each number is kept or hidden by its place and by the class that its bits name, whatever else it holds.
pub fn extract(
    p: Policy,
    class: u32,
    trace: &[u32],
    log: &[u32],
    out: &mut [u32],
) -> Result<usize, Refusal>
    ensures value { extracted_of result ≡ extract p class trace.now log.now out.old }
    ensures out_after { out.new ≡ out_after p class trace.now log.now out.old }
{
    let named = order::is_class(p.classes, class as usize);
    let seen = seen_by(p, u32::from(masks::class_mask(class as usize)));
    extract_seen(p, named, seen, trace, log, out)
}

// W-211: the same for a set of classes, bit c of `set` for class c: what may flow to at least one of them is kept.
// Kept: beside `extract`, since each has its definition, its theorems (OneClass, SetLaws) and its function for C; both are one function inside.
pub fn extract_set(
    p: Policy,
    set: u32,
    trace: &[u32],
    log: &[u32],
    out: &mut [u32],
) -> Result<usize, Refusal>
    ensures value { extracted_of result ≡ extract_set p set trace.now log.now out.old }
    ensures out_after { out.new ≡ out_after_set p set trace.now log.now out.old }
{
    let named = are_classes(p, set);
    let seen = seen_by(p, set);
    extract_seen(p, named, seen, trace, log, out)
}
