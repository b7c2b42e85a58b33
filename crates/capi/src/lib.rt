// The model for other programs: numbers and slices only. `include/vigambul.h` says the same to C. A slice passes as a pointer and then its length.
// Kept: two functions where two names are C's (extracts, recordings), and the reading of a file in each: a function that is handed the question as a closure would have clauses of that closure's calls, and of what it writes.

#![tactic(auto)]

ghost use Rattle.std.specs.Prelude.{◌≡◌, true, false};
ghost use Rattle.capi.specs.Runs.{run_status, run_log};
ghost use Rattle.capi.specs.Extracts.{file_extract_status, file_extract_count, file_extract_out, file_set_status, file_set_count, file_set_out};
ghost use Rattle.capi.specs.Bounds.{file_bound_status, file_bound};
ghost use Rattle.capi.specs.Matches.{held_by, which_of, place_of, match_status, match_which, match_at};
ghost use Rattle.recordings.specs.Recording.{status_of};
ghost use Rattle.recordings.specs.Logged.{record_status, recorded, out_after};
ghost use Rattle.capi.specs.SmallOrders.{order_status, order_size, order_file};

use recordings::{Alone, Fault};

// Reads a policy file's bytes, makes its fresh state and runs a trace from it into a log. Answers 0, or 1 to 8 for the file, or 15 for a log that is too short; then
// nothing is written.
#[unsafe(no_mangle)]
pub extern "C" fn vigambul_run(file: &[u8], trace: &[u32], log: &mut [u32]) -> u32
    ensures value { result ≡ run_status file.now trace.now log.old }
    ensures log_after { log.new ≡ run_log file.now trace.now log.old }
{
    let reading = file::read(file);
    if reading.status != 0 {
        return reading.status;
    }
    let p = reading.policy;
    logs::run(p, state::fresh(p).state, trace, log).status
}

// Reads a policy file's bytes, and writes what a class may see of the log of a trace to the start of `out`. Answers how many numbers that is, and puts into `status` 0,
// or 1 to 8 for the file, 9 for the class, 17 for the log's length or 16 for too little room; then the count is 0 and nothing is written.
#[unsafe(no_mangle)]
pub extern "C" fn vigambul_extract(
    file: &[u8],
    class: u32,
    trace: &[u32],
    log: &[u32],
    out: &mut [u32],
    status: &mut u32,
) -> usize
    ensures value { result ≡ file_extract_count file.now class trace.now log.now out.old }
    ensures status_after { status.new ≡ file_extract_status file.now class trace.now log.now out.old }
    ensures out_after { out.new ≡ file_extract_out file.now class trace.now log.now out.old }
{
    let reading = file::read(file);
    if reading.status != 0 {
        *status = reading.status;
        return 0;
    }
    let p = reading.policy;
    let extracted = extract::extract(p, class, trace, log, out);
    *status = refusals::status_of(extracted);
    extracted.unwrap_or(0)
}

// W-211: the same for a set of classes, bit c of `set` for class c: what may flow to at least one of them is kept. 9 is for a bit that stands for none of the policy's classes.
#[unsafe(no_mangle)]
pub extern "C" fn vigambul_extract_set(
    file: &[u8],
    set: u32,
    trace: &[u32],
    log: &[u32],
    out: &mut [u32],
    status: &mut u32,
) -> usize
    ensures value { result ≡ file_set_count file.now set trace.now log.now out.old }
    ensures status_after { status.new ≡ file_set_status file.now set trace.now log.now out.old }
    ensures out_after { out.new ≡ file_set_out file.now set trace.now log.now out.old }
{
    let reading = file::read(file);
    if reading.status != 0 {
        *status = reading.status;
        return 0;
    }
    let p = reading.policy;
    let together = extract::extract_set(p, set, trace, log, out);
    *status = refusals::status_of(together);
    together.unwrap_or(0)
}

// Reads a policy file's bytes, and answers how many classes a walk that starts at a class tries at most, the class counted: the number of classes on the longest rising chain
// from it, 1 to 16. Puts into `status` 0, or 1 to 8 for the file or 9 for the class; then the answer is 0.
#[unsafe(no_mangle)]
pub extern "C" fn vigambul_walk_bound(file: &[u8], class: u32, status: &mut u32) -> u32
    ensures value { result ≡ file_bound file.now class }
    ensures status_after { status.new ≡ file_bound_status file.now class }
{
    let reading = file::read(file);
    if reading.status != 0 {
        *status = reading.status;
        return 0;
    }
    let p = reading.policy;
    let bound = policy::walk_bound(p, class);
    *status = refusals::status_of(bound);
    bound.unwrap_or(0)
}

// The number of an answer.
// Kept: numbers for the answers, from here to vigambul_match and in every function for C, as include/vigambul.h has them.
#[tactic(auto, unfolding(recordings::specs::Recording::status_of))]
fn status_of(sound: Result<(), Fault>) -> u32
    ensures { result ≡ status_of sound }
{
    match sound {
        Ok(()) => 0,
        Err(_) => 18,
    }
}

// The recording that holds an event.
#[tactic(auto, unfolding(crate::specs::Matches::held_by))]
fn held_by(found: Option<Alone>) -> u32
    ensures { result ≡ held_by found }
{
    match found {
        None => 0,
        Some(Alone::Activate(_)) => 1,
        Some(Alone::Response(_)) => 2,
    }
}

// The recording that is named.
#[tactic(auto, unfolding(crate::specs::Matches::which_of))]
fn which_of(sound: Result<(), Fault>, found: Option<Alone>) -> u32
    ensures { result ≡ which_of sound found }
{
    match sound {
        Ok(()) => held_by(found),
        Err(Fault::Wires) => 1,
        Err(Fault::Cores) => 2,
    }
}

// The place where the rest begins.
#[tactic(auto, unfolding(crate::specs::Matches::place_of))]
fn place_of(end: usize, found: Option<Alone>) -> usize
    ensures { result ≡ place_of end found }
{
    match found {
        None => end,
        Some(Alone::Activate(at) | Alone::Response(at)) => at,
    }
}

// W-204: holds a recording of the wires and one of the cores together. Answers 0, or 18 if one is unsound. Puts into `which` the recording that is named (1 for the wires', 2 for the
// cores', 0 for none), and into `at` the place in it where the rest begins, and the end of the wires' where that is the empty one.
#[tactic(auto, unfolding(crate::specs::Matches::match_status, crate::specs::Matches::match_which, crate::specs::Matches::match_at))]
#[unsafe(no_mangle)]
pub extern "C" fn vigambul_match(
    wires: &[u32],
    cores: &[u32],
    delay: u8,
    which: &mut u32,
    at: &mut usize,
) -> u32
    ensures value { result ≡ match_status wires.now cores.now delay }
    ensures which_after { which.new ≡ match_which wires.now cores.now delay }
    ensures at_after { at.new ≡ match_at wires.now cores.now delay }
{
    let sound = recordings::unsound(wires, cores, delay);
    let found = recordings::first_alone(wires, cores, delay);
    *which = which_of(sound, found);
    *at = place_of(wires.len(), found);
    status_of(sound)
}

// W-204: writes the recording of the activates on the wires that the log of a trace shows, which begins at cycle `start`, to the start of `wires`. Answers 0, or 17 for the log's length,
// 12 where the start and its ticks are past the last cycle, 16 for too little room; then the count is 0 and nothing is written.
#[unsafe(no_mangle)]
pub extern "C" fn vigambul_wires(
    trace: &[u32],
    log: &[u32],
    start: u32,
    wires: &mut [u32],
    count: &mut usize,
) -> u32
    ensures value { result ≡ record_status true trace.now log.now start wires.old }
    ensures count_after { count.new ≡ (recorded true trace.now log.now start wires.old).count }
    ensures wires_after { wires.new ≡ out_after true trace.now log.now start wires.old }
{
    let at_wires = recordings::wires_of(trace, log, start, wires);
    *count = at_wires.unwrap_or(0);
    refusals::status_of(at_wires)
}

// W-204: the same for the responses at the cores.
#[unsafe(no_mangle)]
pub extern "C" fn vigambul_cores(
    trace: &[u32],
    log: &[u32],
    start: u32,
    cores: &mut [u32],
    count: &mut usize,
) -> u32
    ensures value { result ≡ record_status false trace.now log.now start cores.old }
    ensures count_after { count.new ≡ (recorded false trace.now log.now start cores.old).count }
    ensures cores_after { cores.new ≡ out_after false trace.now log.now start cores.old }
{
    let at_cores = recordings::cores_of(trace, log, start, cores);
    *count = at_cores.unwrap_or(0);
    refusals::status_of(at_cores)
}

// W-208: writes the policy file of the order of n classes, 1 to 4, at a place from 0, with E = 4, minimums 0 and a timing body of 10 or 11 bytes, to the start of `file`, and puts
// into `len` how many bytes it has. Answers 0; or 20 for n, 2 for the timing body's length, 8 for its numbers, 16 for too little room: then `len` is 0 and nothing is written, and
// so it is, with 0, for a place past the last.
#[unsafe(no_mangle)]
pub extern "C" fn vigambul_order(
    n: u32,
    place: u32,
    timing: &[u8],
    file: &mut [u8],
    len: &mut usize,
) -> u32
    ensures value { result ≡ order_status n place timing.now file.old }
    ensures len_after { len.new ≡ order_size n place timing.now file.old }
    ensures file_after { file.new ≡ order_file n place timing.now file.old }
{
    let fetched = orders::fetch(n, place, timing);
    let p = fetched.policy;
    if !((fetched.status == 0) & (0 < p.classes)) {
        *len = 0;
        return fetched.status;
    }
    let written = writer::write(p, file);
    *len = written.unwrap_or(0);
    refusals::status_of(written)
}
