// The script of a test program: where its lines stand, which numbers they hold, and what is printed of them. No contract can say what is printed.

#![tactic(auto)]

ghost use Rattle.std.specs.Prelude.{◌≡◌, ◌<◌, ◌≤◌, ◌%◌, ◌/◌, ◌-◌, length, get_or, take, drop, IfOk};
ghost use Rattle.std.specs.Iterator.{at_most};
ghost use Rattle.std.specs.Option.{unwrap_or};
ghost use Rattle.std.specs.Simd.{first_chunks};
ghost use Rattle.basics.specs.Below.{list_of};
ghost use Rattle.script.specs.Script.{stands_at, after, no_line, next_line, line_after, digit_of, grown, token_after, pushed, with_token, numbers_of, case_of};

use std::fmt::Display;
use std::io::Read;
use std::{array, io};

// A line: its first letter, where its name and its numbers start, and where the next line does; and of the lines before it that it goes by, where their numbers start.
#[derive(Clone, Copy, Default)]
pub struct Line {
    pub letter: u8,
    pub name: usize,
    pub numbers: usize,
    pub next: usize,
    pub file: usize,
    pub state: usize,
    pub trace: usize,
    pub log: usize,
}

// What every number of a slice is before a call writes into it.
pub const MARKER: u32 = 7777;

// A list of numbers, and how many there are.
// Kept: `numbers` promises its list on every call, and a Vec may fail to be made; and there are cases that give a list a count past the numbers that it holds.
#[derive(Clone, Copy)]
pub struct List {
    pub at: [u32; 160],
    pub count: usize,
}

// A case of a script: the script's bytes, the line on which the case stands, and the numbers of that line.
#[derive(Clone, Copy)]
pub struct Case<'a> {
    pub text: &'a [u8],
    pub line: Line,
    pub own: List,
}

// What is read of a number: nothing, a word, which has its first letter, or digits.
#[derive(Clone, Copy)]
enum Token {
    Between,
    Word(u32),
    Number { base: u32, value: u32 },
}

impl List {
    // The number at an index, and 0 past the places.
    pub fn get(&self, index: usize) -> u32
        ensures { result ≡ get_or self.now.at index 0 }
    {
        self.at.get(index).copied().unwrap_or(0)
    }

    // The numbers of the first places, as many as are asked for, or of all where there are not so many.
    pub fn first(&self, count: usize) -> &[u32]
        ensures { result.now ≡ take count self.now.at }
    {
        &self.at[..count.min(160)]
    }

    // Puts a number behind the others, where there is room.
    #[tactic(auto, unfolding(crate::specs::Script::pushed))]
    pub fn push(&mut self, value: u32)
        ensures { self.new ≡ pushed self.old value }
    {
        let count = self.count;
        if count < 160 {
            self.at[count] = value;
            self.count = count + 1;
        }
    }

    // The changes that stand in the numbers from a place on, three to a change.
    pub fn changes(&self, from: usize) -> &[[u32; 3]]
        ensures { result.now ≡ first_chunks 3 ((length self.now.at - from) / 3) (drop from self.now.at) }
    {
        let (changes, _) = self.at[from.min(160)..].as_chunks::<3>();
        changes
    }

    // The numbers of the first places as bytes.
    // Kept: `as`, which narrows: proved to lose nothing.
    pub fn bytes<const N: usize>(&self) -> [u8; N]
        ensures { result ≡ list_of N (λ i. get_or self.now.at i 0 % 256) }
    {
        array::from_fn(|i| (self.get(i) % 256) as u8)
    }
}

// The byte at a place, and 0 past the end.
// Kept: one expression of the library's under a name, as in `file`.
fn byte(text: &[u8], at: usize) -> u8
    ensures { result ≡ get_or text.now at 0 }
{
    text.get(at).copied().unwrap_or(0)
}

// Whether a byte stands at a place, and another does not stand after it.
#[tactic(auto, unfolding(crate::specs::Script::stands_at))]
fn stands_at(text: &[u8], wanted: u8, unwanted: u8, at: usize) -> bool
    ensures { result ≡ stands_at text.now wanted unwanted at }
{
    (byte(text, at) == wanted) & (byte(text, at.saturating_add(1)) != unwanted)
}

// The place after the first byte, from a place on, after which another does not stand, and the text's length where there is none.
fn after(text: &[u8], from: usize, wanted: u8, unwanted: u8) -> usize
    ensures place { result ≡ after text.now from wanted unwanted }
    ensures onward { from < length text.now → from < result }
{
    match (from..text.len()).find(|at| stands_at(text, wanted, unwanted, *at)) {
        Some(at) => at + 1,
        None => text.len(),
    }
}

// The line after another. One that holds what later lines go by is remembered.
#[tactic(auto, unfolding(crate::specs::Script::next_line, crate::specs::Script::line_end, crate::specs::Script::numbers_start))]
pub fn next_line(text: &[u8], earlier: Line) -> Line
    ensures line { result ≡ next_line text.now earlier }
    ensures onward { earlier.next < length text.now → earlier.next < result.next }
{
    let at = earlier.next;
    let letter = byte(text, at);
    let numbers = after(text, at, b':', b':');
    let kept = |wanted: u8, from: usize| if letter == wanted { numbers } else { from };
    Line {
        letter,
        name: after(text, at, b' ', b' '),
        numbers,
        next: after(text, at, b'\n', b' '),
        file: kept(b'F', earlier.file),
        state: kept(b'S', earlier.state),
        trace: kept(b'T', earlier.trace),
        log: kept(b'L', earlier.log),
    }
}

// The value of a digit, up to F.
// Kept: the script's definitions give every byte a value and every number its last 32 bits, byte by byte; the library's to_digit and from_str_radix give most of them none.
#[tactic(auto, unfolding(crate::specs::Script::digit_of))]
fn digit(b: u8) -> u32
    ensures { result ≡ digit_of b }
{
    u32::from(if b < 65 { b.saturating_sub(48) } else { b - 55 })
}

// A number with a digit more.
#[tactic(auto, unfolding(crate::specs::Script::grown))]
fn grown(base: u32, value: u32, b: u8) -> u32
    ensures { result ≡ grown base value b }
{
    base.wrapping_mul(value).wrapping_add(digit(b) % 16)
}

// What is read once a byte more is.
#[tactic(auto, unfolding(crate::specs::Script::token_after))]
fn token_after(t: Token, b: u8) -> Token
    ensures { result ≡ token_after t b }
{
    if b <= 32 {
        return Token::Between;
    }
    match t {
        Token::Word(_) => t,
        _ if b == b'x' => Token::Number { base: 16, value: 0 },
        Token::Number { base, value } => Token::Number {
            base,
            value: grown(base, value, b),
        },
        Token::Between if b < 65 => Token::Number {
            base: 10,
            value: grown(10, 0, b),
        },
        Token::Between => Token::Word(u32::from(b)),
    }
}

// Puts the number of what was read so far into a list, where a byte more ends it.
#[tactic(auto, unfolding(crate::specs::Script::with_token, crate::specs::Script::with_value))]
fn put(list: &mut List, before: Token, after: Token)
    ensures { list.new ≡ with_token list.old before after }
{
    match (before, after) {
        (Token::Word(value) | Token::Number { value, .. }, Token::Between) => list.push(value),
        _ => {}
    }
}

// The numbers that start at a place, to the end of their line. A line that starts with a space goes on with the one before it.
pub fn numbers(text: &[u8], from: usize) -> List
    ensures { result ≡ numbers_of text.now from }
{
    let end = after(text, from, b'\n', b' ');
    let mut list = List {
        at: [0; 160],
        count: 0,
    };
    let mut token = Token::Between;
    for at in from..end {
        let next = token_after(token, byte(text, at));
        put(&mut list, token, next);
        token = next;
    }
    list
}

// The lines of a script, one after the other: its bytes, and the line that came last.
#[derive(Drop)]
pub struct LinesOf<'a> {
    text: &'a [u8],
    last: Line,
}

// The lines of a script, from its start.
#[tactic(auto, unfolding(crate::specs::Script::no_line))]
pub fn lines(text: &[u8]) -> LinesOf<'_>
    ensures text { result.text.now ≡ text.now }
    ensures start { result.last ≡ no_line }
{
    LinesOf {
        text,
        last: Line::default(),
    }
}

impl<'a> Iterator for LinesOf<'a> {
    type Item = Line;

    ghost next_gives = { λ s r t. (r ≡ line_after s.text.now s.last) × (t.text ≡ s.text) × (t.last ≡ unwrap_or r s.last) };

    ghost remaining = { λ s. at_most (length s.text.now - s.last.next) };

    #[tactic(auto, unfolding(crate::specs::Script::line_after))]
    fn next(&mut self) -> Option<Line> {
        if self.text.len() <= self.last.next {
            return None;
        }
        self.last = next_line(self.text, self.last);
        Some(self.last)
    }
}

// Reads a script until the buffer is full or the input ends, and answers how many bytes it put at the buffer's start.
// Kept: what the loop counts is bytes that were read, as many at a turn as the input gives, and no index of its own.
pub fn read(input: &mut impl Read, text: &mut [u8]) -> io::Result<usize>
    ensures { IfOk result (λ count. count ≤ length text.new) }
{
    let mut count = 0;
    while count < text.len() {
        let n = input.read(&mut text[count..])?;
        if n == 0 {
            break;
        }
        count += n;
    }
    Ok(count)
}

// The case that stands on a line. A comment, an empty line and what later lines go by are none.
#[tactic(auto, unfolding(crate::specs::Script::case_of))]
pub fn case_of(text: &[u8], line: Line) -> Option<Case<'_>>
    ensures { result ≡ case_of text.entry line }
{
    if line.letter < b'a' {
        return None;
    }
    let own = numbers(text, line.numbers);
    Some(Case { text, line, own })
}

// Prints a number after a space.
pub fn spaced(rt: &impl Print, n: impl Display + Drop) -> io::Result<()> {
    print!(rt; " {n}")
}

// Prints numbers, each after a space.
pub fn all_spaced<T: Display>(rt: &impl Print, numbers: &[T]) -> io::Result<()> {
    for n in numbers {
        spaced(rt, n)?;
    }
    Ok(())
}

impl Case<'_> {
    // Prints the name, up to its colon, with the numbers that stand for each # in it.
    pub fn name(&self, rt: &impl Print) -> io::Result<()> {
        let mut numbers = self.own.at.iter();
        for b in self.text.iter().skip(self.line.name) {
            if *b == b':' {
                break;
            }
            if *b != b'#' {
                rt.write_all(&[*b])?;
            } else if let Some(n) = numbers.next() {
                rt.print(*n)?;
            }
        }
        Ok(())
    }

    // Prints the name and the number of a line of the case's own.
    pub fn label(&self, rt: &impl Print, at: usize) -> io::Result<()> {
        self.name(rt)?;
        print!(rt; " {at}:")
    }

    // Prints numbers four to a line, each line with its label.
    pub fn rows(&self, rt: &impl Print, numbers: &[u32]) -> io::Result<()> {
        for (at, row) in numbers.chunks(4).enumerate() {
            self.label(rt, at)?;
            all_spaced(rt, row)?;
            if row.len() == 4 {
                rt.write_all(b"\n")?;
            }
        }
        Ok(())
    }
}
