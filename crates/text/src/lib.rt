// What the program reads and prints, as bytes: the words of a trace, and the lines of a log.

#![tactic(auto)]

ghost use Rattle.std.specs.Prelude.{◌≡◌, [], ◌∷◌, ◌++◌, ℕ, ◌+◌, ◌*◌, ◌/◌, ◌%◌, ◌≤◌, ◌<◌, length, get_or, drop};
ghost use Rattle.std.proofs.lemmas.List.Edits.{sets};
ghost use Rattle.text.specs.Lines.{digit, hex_of, line_at, lines_of, line_count};
ghost use Rattle.text.specs.Words.{word_at, words_of, word_count};

// ---- a log's lines

// Puts pair k of the table into `out` at `at`. The compiler moves the two at once, so a pair costs what a single digit would.
fn put_pair(table: &[u8; 512], k: u8, out: &mut [u8], at: usize)
    requires { at + 2 ≤ length out.old }
    ensures { out.new ≡ sets out.old at (get_or table.now (2 * k) 0 ∷ get_or table.now (2 * k + 1) 0 ∷ []) }
{
    let from = 2 * usize::from(k);
    out[at] = table[from];
    out[at + 1] = table[from + 1];
}

// Puts the 8 digits of a number, and the sign that ends it, into `out` from `at` on. Pair k of the table is the digits of the byte k.
// Kept: a log that the library's {:08X} writes takes 16 times as long (4096 lines: 1063 µs, by the table 66 µs), and the program prints one line for each call. A slice and a place in it, since lines
// follow one another in one buffer.
fn put_number(table: &[u8; 512], n: u32, sign: u8, out: &mut [u8], at: usize)
    requires by_index { (k : ℕ) → k < 256 → (get_or table.now (2 * k) 0 ≡ digit (k / 16)) × (get_or table.now (2 * k + 1) 0 ≡ digit (k % 16)) }
    requires at_in_bounds { at + 9 ≤ length out.old }
    ensures { out.new ≡ sets out.old at (hex_of n ++ (sign ∷ [])) }
{
    let [a, b, c, d] = n.to_be_bytes();
    put_pair(table, a, out, at);
    put_pair(table, b, out, at + 2);
    put_pair(table, c, out, at + 4);
    put_pair(table, d, out, at + 6);
    out[at + 8] = sign;
}

// Puts line i of the log at its place in `out`.
fn put_line(table: &[u8; 512], log: &[u32], i: usize, out: &mut [u8])
    requires by_index { (k : ℕ) → k < 256 → (get_or table.now (2 * k) 0 ≡ digit (k / 16)) × (get_or table.now (2 * k + 1) 0 ≡ digit (k % 16)) }
    requires i_in_bounds { (4 * i + 4 ≤ length log.now) × (36 * i + 36 ≤ length out.old) }
    ensures { out.new ≡ sets out.old (36 * i) (line_at log.now i) }
{
    let from = 4 * i;
    let at = 36 * i;
    put_number(table, log[from], 32, out, at);
    put_number(table, log[from + 1], 32, out, at + 9);
    put_number(table, log[from + 2], 32, out, at + 18);
    put_number(table, log[from + 3], 10, out, at + 27);
}

// Writes the lines of the log to the start of `out`: as many whole lines as the log has and `out` has room for. Answers how many bytes they are. (Document 01 leaves open what
// becomes of a log that ends inside a line, or of too little room: the rest is left.)
pub fn lines(log: &[u32], out: &mut [u8]) -> usize
    ensures value { result ≡ 36 * line_count log.now out.old }
    ensures out_after { out.new ≡ lines_of (line_count log.now out.old) log.now ++ drop result out.old }
{
    let count = (log.len() / 4).min(out.len() / 36);
    // Pair k is the digits of the byte k. The table is lent from here: one of its own would be copied for every line.
    let table = b"000102030405060708090A0B0C0D0E0F\
          101112131415161718191A1B1C1D1E1F\
          202122232425262728292A2B2C2D2E2F\
          303132333435363738393A3B3C3D3E3F\
          404142434445464748494A4B4C4D4E4F\
          505152535455565758595A5B5C5D5E5F\
          606162636465666768696A6B6C6D6E6F\
          707172737475767778797A7B7C7D7E7F\
          808182838485868788898A8B8C8D8E8F\
          909192939495969798999A9B9C9D9E9F\
          A0A1A2A3A4A5A6A7A8A9AAABACADAEAF\
          B0B1B2B3B4B5B6B7B8B9BABBBCBDBEBF\
          C0C1C2C3C4C5C6C7C8C9CACBCCCDCECF\
          D0D1D2D3D4D5D6D7D8D9DADBDCDDDEDF\
          E0E1E2E3E4E5E6E7E8E9EAEBECEDEEEF\
          F0F1F2F3F4F5F6F7F8F9FAFBFCFDFEFF";
    for i in 0..count {
        put_line(table, log, i, out);
    }
    36 * count
}

// ---- a trace's words

// Word i of the bytes, low byte first.
#[tactic(auto, unfolding(crate::specs::Words::word_at))]
fn word_at(bytes: &[u8], i: usize) -> u32
    requires { 4 * i + 4 ≤ length bytes.now }
    ensures { result ≡ word_at bytes.now i }
{
    let at = 4 * i;
    u32::from_le_bytes([bytes[at], bytes[at + 1], bytes[at + 2], bytes[at + 3]])
}

// Writes the words of the bytes to the start of `out`: as many whole words as the bytes have and `out` has room for. Answers how many they are. (Document 01 leaves open what
// becomes of left-over bytes, or of too little room, here: the rest is left. The program tells left-over bytes.)
pub fn words(bytes: &[u8], out: &mut [u32]) -> usize
    ensures value { result ≡ word_count bytes.now out.old }
    ensures out_after { out.new ≡ words_of result bytes.now ++ drop result out.old }
{
    let count = (bytes.len() / 4).min(out.len());
    for i in 0..count {
        out[i] = word_at(bytes, i);
    }
    count
}
