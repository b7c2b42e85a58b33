// The program: reads policy.bin and trace.bin of the working folder, and prints a header and a line for each trace number. It goes through the trace in blocks, so a
// trace of any length runs in constant memory.

#![tactic(auto)]

ghost use Rattle.std.specs.Prelude.{◌≡◌, ◌*◌, ◌≤◌, length, take, IfOk};

use policy::Policy;
use state::State;
use std::env::FillError;
use std::fs::File;
use std::io;
use std::io::{ErrorKind, Read, Write};
use std::rt::{Env, Files};

// Something failed, and that was said on standard error.
#[derive(Clone, Copy)]
struct Told;

// Says on standard error what failed, and why in the system's words, without the number that std adds to them. Where that fails too, nothing is left to say it on.
fn fail(rt: &impl Eprint, what: &str, error: io::Error) {
    let mut text = [0u8; 256];
    let mut room = &mut text[..];
    let _ = write!(room, "{error}");
    let told = str::from_utf8(&text).unwrap_or("");
    let why = match told.split_once(" (os error ") {
        Some((words, _)) => words,
        None => told.trim_end_matches('\0'),
    };
    let _ = eprintln!(rt; "{what}: {why}");
}

// Writes to standard output. Where that fails, it says so.
fn print(rt: &(impl Print + Eprint), bytes: &[u8]) -> Result<(), Told> {
    rt.write_all(bytes).map_err(|error| {
        fail(rt, "standard output", error);
        Told
    })
}

// Reads until the buffer is full or the file ends, and answers how many bytes that were. Where a read fails, it says so, and what was read before stands in the buffer.
// Kept: what the loop counts is bytes that were read, as many at a turn as the file gives, and no index; the library's read_exact does not say how much was read before a failure, and read_to_end needs a Vec and reads on past the block.
fn fill(
    rt: &impl Eprint,
    file: &mut impl Read,
    name: &str,
    buffer: &mut [u8],
) -> (usize, Result<(), Told>)
    ensures { (result.0 ≤ length buffer.new) × (result.0 ≡ length (take result.0 buffer.new)) }
{
    let mut count = 0;
    while count < buffer.len() {
        match file.read(&mut buffer[count..]) {
            Ok(0) => break,
            Ok(n) => count += n,
            Err(error) => {
                fail(rt, name, error);
                return (count, Err(Told));
            }
        }
    }
    (count, Ok(()))
}

// Opens a file of the working folder for reading. A missing one is read as empty.
fn open<R: Files + Eprint>(rt: &R, name: &str) -> Result<Option<R::File>, Told> {
    match File::open(rt, name) {
        Ok(file) => Ok(Some(file)),
        Err(error) if error.kind() == ErrorKind::NotFound => Ok(None),
        Err(error) => {
            fail(rt, name, error);
            Err(Told)
        }
    }
}

// How many first bytes of policy.bin stand in the buffer. A file of more than 65,535 bytes fills the buffer, and reading refuses it by that.
fn policy_file(rt: &(impl Files + Eprint), buffer: &mut [u8]) -> Result<usize, Told>
    ensures { IfOk result (λ count. (count ≤ length buffer.new) × (count ≡ length (take count buffer.new))) }
{
    let Some(mut file) = open(rt, "policy.bin")? else {
        return Ok(0);
    };
    let (count, whole) = fill(rt, &mut file, "policy.bin", buffer);
    whole?;
    Ok(count)
}

// A policy that is refused prints only its number. Reading refuses with 1 to 8 alone; of another number, which never comes, nothing is printed.
// Kept: document 01 wants refusal texts that are fixed byte strings, and not a number written out.
fn refused(rt: &(impl Print + Eprint), status: u32) -> Result<(), Told> {
    let text: &[u8] = match status {
        1 => b"policy refused 1\n",
        2 => b"policy refused 2\n",
        3 => b"policy refused 3\n",
        4 => b"policy refused 4\n",
        5 => b"policy refused 5\n",
        6 => b"policy refused 6\n",
        7 => b"policy refused 7\n",
        8 => b"policy refused 8\n",
        _ => b"",
    };
    print(rt, text)
}

// A block of the trace, from the state that the last one left: its words, their run, and its lines. Answers the state after it, and none where the trace has ended.
#[tactic(auto, unfolding(text::specs::Words::word_count, text::specs::Lines::line_count))]
fn block(
    rt: &(impl Print + Eprint),
    p: Policy,
    s: State,
    file: &mut impl Read,
    bytes: &mut [u8],
    words: &mut [u32],
    log: &mut [u32],
    text: &mut [u8],
) -> Result<Option<State>, Told>
    requires { 4 * length words.old ≤ length log.old }
{
    let (count, whole) = fill(rt, file, "trace.bin", bytes);
    let n = text::words(&bytes[..count], words);
    let ran = logs::run(p, s, &words[..n], log);
    let length = text::lines(&log[..4 * n], text);
    print(rt, &text[..length])?;
    whole?;
    if count == bytes.len() {
        return Ok(Some(ran.state));
    }
    if count % 4 != 0 {
        print(rt, b"trace ends inside a word\n")?;
    }
    Ok(None)
}

// The whole trace, block by block. A proved loop has to end, and nothing says that a file does: so there is a number of blocks that no run uses up.
fn stream(rt: &(impl Print + Eprint), p: Policy, file: &mut impl Read) -> Result<(), Told> {
    let mut state = state::fresh(p).state;
    let mut bytes = [0u8; 16384];
    let mut words = [0u32; 4096];
    let mut log = [0u32; 16384];
    let mut text = [0u8; 147456];
    for _ in 0..u64::MAX {
        let next = block(
            rt, p, state, file, &mut bytes, &mut words, &mut log, &mut text,
        )?;
        match next {
            Some(s) => state = s,
            None => break,
        }
    }
    Ok(())
}

// The header, and the trace's lines. A missing trace has none.
fn accepted(rt: &(impl Files + Print + Eprint), p: Policy) -> Result<(), Told> {
    print(rt, b"status command answer turn\n")?;
    if let Some(mut file) = open(rt, "trace.bin")? {
        stream(rt, p, &mut file)?;
    }
    Ok(())
}

// The program takes no arguments. Where it is given some it says so, and goes on without them.
fn arguments(rt: &(impl Env + Eprint)) {
    match rt.arg(1, &mut []) {
        Err(FillError::NotPresent) => {}
        Ok(_) | Err(FillError::TooLong) => {
            let _ = eprintln!(rt;
                "vigambul takes no arguments: it reads policy.bin and trace.bin in the folder it runs in"
            );
        }
    }
}

// What the program does with its two files.
fn run(rt: &(impl Files + Print + Eprint)) -> Result<(), Told> {
    let mut buffer = [0u8; 65536];
    let count = policy_file(rt, &mut buffer)?;
    let reading = file::read(&buffer[..count]);
    if reading.status != 0 {
        return refused(rt, reading.status);
    }
    accepted(rt, reading.policy)
}

fn main(rt: HostRuntime) {
    arguments(&rt);
    // What failed was said, and the program's status stays 0.
    let _ = run(&rt);
}
