// W-204: a lab's recordings. "Labs record activates on the command wires and answers at the cores, each as pairs of cycle and word, and must hold the two recordings together." A
// recording is a slice of numbers: cycle, word, cycle, word.

#![tactic(auto)]

ghost use Rattle.std.specs.Prelude.{◌≡◌, true, false, cond, not, leb, ◌+◌, ◌*◌, ◌<◌, ◌≤◌, length, get_or};
ghost use Rattle.std.proofs.lemmas.List.Edits.{sets};
ghost use Rattle.basics.specs.Below.{first};
ghost use Rattle.requests.specs.Sizes.{last_cycle};
ghost use Rattle.recordings.specs.Recording.{cycle_at, rises, due_fits, soundness};
ghost use Rattle.recordings.specs.Match.{partners, alone, unmatched, rest_at};
ghost use Rattle.recordings.specs.declared.Alone.TheVariants.{Activate, Response};
ghost use Rattle.recordings.specs.Logged.{is_tick, shown_at, word_shown, event_at, ticks_in, recording_of, written, counted, recorded, out_after};

use refusals::Refusal;
use requests::LAST_CYCLE;

// Which of two recordings is unsound (18), the wires' first.
#[derive(Clone, Copy)]
pub enum Fault {
    Wires,
    Cores,
}

// An event without a partner: an activate at its place in the wires' recording, or a response at its place in the cores'.
#[derive(Clone, Copy)]
pub enum Alone {
    Activate(usize),
    Response(usize),
}

// ---- whether a recording is sound

// Whether each cycle is above the one before.
fn rises(recording: &[u32]) -> bool
    ensures { result ≡ rises recording.now }
{
    let pairs = (recording.len() / 2).saturating_sub(1);
    (0..pairs).all(|i| recording[2 * i] < recording[2 * i + 2])
}

// Whether the answer to each activate is due in 32 bits.
fn due_fits(wires: &[u32], delay: u8) -> bool
    ensures { result ≡ due_fits delay wires.now }
{
    let last = u32::MAX - u32::from(delay);
    (0..wires.len() / 2).all(|i| wires[2 * i] <= last)
}

// The question: whether both are sound, and which one is not.
// `||`, so that nothing is read behind a test that fails. With `|` in its place vigambul_match would take a quarter more time.
#[tactic(auto, unfolding(crate::specs::Recording::soundness, crate::specs::Recording::wires_sound, crate::specs::Recording::cores_sound, crate::specs::Recording::in_pairs))]
pub fn unsound(wires: &[u32], cores: &[u32], delay: u8) -> Result<(), Fault>
    ensures { result ≡ soundness delay wires.now cores.now }
{
    if (wires.len() % 2 != 0) || !rises(wires) || !due_fits(wires, delay) {
        return Err(Fault::Wires);
    }
    if (cores.len() % 2 != 0) || !rises(cores) {
        return Err(Fault::Cores);
    }
    Ok(())
}

// ---- the first event without a partner

// How many of the first events are partners, activate by response.
// Kept: the two recordings and the delay stay three parameters, as vigambul_match is handed them; a struct of the three would serve two private functions alone.
fn in_step(wires: &[u32], cores: &[u32], delay: u8, n: usize) -> usize
    requires { (due_fits delay wires.now ≡ true) × (2 * n ≤ length wires.now) × (2 * n ≤ length cores.now) }
    ensures { result ≡ first n (λ k. not (partners delay wires.now cores.now k k)) }
{
    (0..n)
        .find(|k| (wires[2 * k + 1] != cores[2 * k + 1])
            | (wires[2 * k] + u32::from(delay) != cores[2 * k]))
        .unwrap_or(n)
}

// Of the k-th activate and the k-th response, which are no partners, the one that is taken first.
#[tactic(auto, using(crate::proofs::Recordings::due_reads), unfolding(crate::specs::Recording::cycle_at))]
fn at_odds(wires: &[u32], cores: &[u32], delay: u8, k: usize) -> Alone
    requires { (due_fits delay wires.now ≡ true) × (2 * k + 2 ≤ length wires.now) × (2 * k + 2 ≤ length cores.now) }
    ensures { result ≡ cond (leb (cycle_at wires.now k + delay) (cycle_at cores.now k)) (Activate (2 * k)) (Response (2 * k)) }
{
    if wires[2 * k] + u32::from(delay) <= cores[2 * k] {
        Alone::Activate(2 * k)
    } else {
        Alone::Response(2 * k)
    }
}

// The first event without a partner, in the order of the cycle its answer is due. Up to it activates and responses come in step, partner by partner, since cycles rise in both recordings.
pub fn first_alone(wires: &[u32], cores: &[u32], delay: u8) -> Option<Alone>
    ensures { result ≡ alone delay wires.now cores.now }
{
    unsound(wires, cores, delay).ok()?;
    let w = wires.len() / 2;
    let c = cores.len() / 2;
    let n = w.min(c);
    let k = in_step(wires, cores, delay, n);
    if k < n {
        return Some(at_odds(wires, cores, delay, k));
    }
    if n < w {
        return Some(Alone::Activate(2 * n));
    }
    if n < c {
        return Some(Alone::Response(2 * n));
    }
    None
}

// The check: the rest of whichever recording holds the first event without a partner, beginning at it; an empty rest of the wires' where all have partners, or a recording is unsound.
#[tactic(auto, using(crate::proofs::Matching::rest), unfolding(crate::specs::Match::unmatched, crate::specs::Match::rest_of, crate::specs::Match::rest_at))]
pub fn unmatched<'a>(wires: &'a [u32], cores: &'a [u32], delay: u8) -> &'a [u32]
    ensures result_value { result.now ≡ unmatched delay wires.now cores.now }
    ensures ref_ptr_value { result.ref_ptr ≡ rest_at wires.entry.ref_ptr cores.entry.ref_ptr wires.now (alone delay wires.now cores.now) }
{
    match first_alone(wires, cores, delay) {
        None => &wires[wires.len()..],
        Some(Alone::Activate(at)) => &wires[at..],
        Some(Alone::Response(at)) => &cores[at..],
    }
}

// ---- the recordings of a log

// The word of an activate on the wires, or of a response at the cores, that a tick's line shows; 0 for none.
// Kept: 0 for no word, as the definitions shown_at and event_at have it.
// Kept: a flag tells the two recordings apart, as in the definitions (recording_of, record_status); with a closure in its place each contract from here to `make` would speak of the closure's calls.
#[tactic(auto, unfolding(crate::specs::Logged::shown_at))]
fn shown_at(activates: bool, command: u32, response: u32) -> u32
    ensures { result ≡ shown_at activates command response }
{
    if !activates {
        response
    } else if (command >> 30) % 2 == 0 {
        command
    } else {
        0
    }
}

// Puts the event of a cycle at which a word is shown into `out` from `at` on. Answers where it ends.
// Kept: a slice and a place in it: what is written stays where it is in the slice that the caller lends, as `out_after` says, so that a writer over the rest of it would be no plainer.
#[tactic(auto, unfolding(crate::specs::Logged::event_at))]
fn put(t: u32, word: u32, out: &mut [u32], at: usize) -> usize
    requires { at + length (event_at t word) ≤ length out.old }
    ensures value { result ≡ at + length (event_at t word) }
    ensures out_after { out.new ≡ sets out.old at (event_at t word) }
{
    if word == 0 {
        return at;
    }
    out[at] = t;
    out[at + 1] = word;
    at + 2
}

// The lines of a log: a number of the trace, and the four of the log that answer it.
#[derive(Clone, Copy)]
struct Lines<'a> {
    trace: &'a [u32],
    log: &'a [u32],
    ghost fourfold: { length log.now ≡ 4 * length trace.now },
}

impl<'a> Lines<'a> {
    // Whether a line is a tick that was made.
    fn is_tick(&self, i: usize) -> bool
        requires { i < length self.now.trace.now }
        ensures { result ≡ is_tick (get_or self.now.trace.now i 0) (get_or self.now.log.now (4 * i) 0) }
    {
        (self.trace[i] == 0) & (self.log[4 * i] == 0)
    }

    // The word that a line shows.
    #[tactic(auto, unfolding(crate::specs::Logged::word_shown))]
    fn word_shown(&self, activates: bool, i: usize) -> u32
        requires { i < length self.now.trace.now }
        ensures { result ≡ word_shown activates (get_or self.now.trace.now i 0) self.now.log.now (4 * i) }
    {
        if self.is_tick(i) {
            shown_at(activates, self.log[4 * i + 1], self.log[4 * i + 2])
        } else {
            0
        }
    }

    // How many ticks of the trace were made.
    // A sum of tests: `filter` and `count` would branch at each line, and take more time.
    fn ticks(&self) -> usize
        ensures { result ≡ ticks_in self.now.trace.now self.now.log.now }
    {
        (0..self.trace.len())
            .map(|i| usize::from(self.is_tick(i)))
            .sum()
    }

    // How many numbers a recording of the log has.
    // Kept: a loop. With a sum, or with `filter` and `count`, it would take more instructions at each line.
    #[tactic(auto, using(crate::proofs::Logged::sizing), unfolding(crate::specs::Logged::recording_of))]
    fn size(&self, activates: bool) -> usize
        ensures { result ≡ length (recording_of activates 0 self.now.trace.now self.now.log.now) }
    {
        let mut count = 0;
        for i in 0..self.trace.len() {
            if self.word_shown(activates, i) != 0 {
                count += 2;
            }
        }
        count
    }

    // Writes a recording of the log to the start of `out`, which has room for it.
    #[tactic(auto, using(crate::proofs::Logged::writing), unfolding(crate::specs::Logged::written, crate::specs::Logged::tick_in, crate::specs::Logged::ticks_in, crate::specs::Logged::recording_of))]
    fn write(&self, activates: bool, start: u32, out: &mut [u32])
        requires ends { start + ticks_in self.now.trace.now self.now.log.now ≤ last_cycle }
        requires in_bounds { length (recording_of activates start self.now.trace.now self.now.log.now) ≤ length out.old }
        ensures { out.new ≡ written (recording_of activates start self.now.trace.now self.now.log.now) out.old }
    {
        let mut at = 0;
        let mut t = start;
        for i in 0..self.trace.len() {
            at = put(t, self.word_shown(activates, i), out, at);
            t += u32::from(self.is_tick(i));
        }
    }
}

// Writes a recording of the log of a trace, which begins at cycle `start`, to the start of `out`, and answers how many numbers that is; or what refuses it.
#[tactic(auto, using(crate::proofs::Logged::making), unfolding(crate::specs::Logged::counted, crate::specs::Logged::recorded, crate::specs::Logged::out_after, crate::specs::Logged::record_status, refusals::specs::Refusal::number))]
fn make(
    activates: bool,
    trace: &[u32],
    log: &[u32],
    start: u32,
    out: &mut [u32],
) -> Result<usize, Refusal>
    ensures value { counted result ≡ recorded activates trace.now log.now start out.old }
    ensures out_after { out.new ≡ out_after activates trace.now log.now start out.old }
{
    if (log.len() % 4 != 0) | (log.len() / 4 != trace.len()) {
        return Err(Refusal::LogLength);
    }
    let lines = Lines { trace, log };
    // Kept: `as`, here and below, since no usize is From<u32>.
    let end = start as usize + lines.ticks();
    if end > LAST_CYCLE as usize {
        return Err(Refusal::LastCycle);
    }
    let count = lines.size(activates);
    if out.len() < count {
        return Err(Refusal::Room);
    }
    lines.write(activates, start, out);
    Ok(count)
}

// The recording of the activates on the wires that a log shows. A log that no run wrote may hold anything: only lines of ticks count, and of those a command other than 0 whose bit 30 is not set.
pub fn wires_of(trace: &[u32], log: &[u32], start: u32, out: &mut [u32]) -> Result<usize, Refusal>
    ensures value { counted result ≡ recorded true trace.now log.now start out.old }
    ensures out_after { out.new ≡ out_after true trace.now log.now start out.old }
{
    make(true, trace, log, start, out)
}

// The recording of the responses at the cores that it shows.
// Kept: beside `wires_of`, since each has its function for C; both are one function inside.
pub fn cores_of(trace: &[u32], log: &[u32], start: u32, out: &mut [u32]) -> Result<usize, Refusal>
    ensures value { counted result ≡ recorded false trace.now log.now start out.old }
    ensures out_after { out.new ≡ out_after false trace.now log.now start out.old }
{
    make(false, trace, log, start, out)
}
