// A request's word and back, and the numbers of a record's parts in the log.
// Kept: functions with names and no `From`: each takes also what is no offer's word, or numbers too large for their fields, so none is a conversion of the one type into the other.

ghost use Rattle.std.specs.Prelude.{◌≡◌, ◌<◌};
ghost use Rattle.requests.specs.Sizes.{bank_places};
ghost use Rattle.requests.specs.Word.{class_of, rank_of, kind_of, bank_of, tag_of, bank_place, request_of, bank_in_word, word_of, is_offer, class_fits, bank_kind_rank_fit, sound_word, command_number, wires_of};

use super::{BANK_COUNT, Request, Wires};

// A column command's number in the log is the request's word with bit 30 set: so much more.
pub const COLUMN: u32 = 1073741824;

// The fields of a word. Where they lie stands here alone. Of a word that is no offer's, which document 01 leaves open, they are what stands in those bits.
// Kept: a function for each field and no one of two constants: the crates above ask for a field by its name, and each body is one expression as it is.

#[tactic(auto, unfolding(crate::specs::Word::class_of))]
pub fn class_of(word: u32) -> u32
    ensures { result ≡ class_of word }
{
    word / 16777216 % 32
}

#[tactic(auto, unfolding(crate::specs::Word::rank_of))]
pub fn rank_of(word: u32) -> u32
    ensures { result ≡ rank_of word }
{
    word / 4194304 % 4
}

#[tactic(auto, unfolding(crate::specs::Word::kind_of))]
pub fn kind_of(word: u32) -> u32
    ensures { result ≡ kind_of word }
{
    word / 1048576 % 4
}

#[tactic(auto, unfolding(crate::specs::Word::bank_of))]
pub fn bank_of(word: u32) -> u32
    ensures { result ≡ bank_of word }
{
    word / 65536 % 16
}

// The place of a word's bank among those of all ranks.
#[tactic(auto, unfolding(crate::specs::Word::rank_of, crate::specs::Word::bank_place))]
pub fn bank_place(word: u32) -> usize
    ensures place { result ≡ bank_place word }
    ensures small { result < bank_places }
{
    BANK_COUNT * (rank_of(word) as usize) + bank_of(word) as usize % BANK_COUNT
}

// Kept: `as`, which narrows: proved to lose nothing.
#[tactic(auto, unfolding(crate::specs::Word::tag_of))]
fn tag_of(word: u32) -> u16
    ensures { result ≡ tag_of word }
{
    (word % 65536) as u16
}

// The request that a word names by its fields, whatever its other bits are: of a word that is no offer's, which document 01 leaves open, what stands in those bits.
#[tactic(auto, unfolding(crate::specs::Word::request_of))]
pub fn request_of(word: u32) -> Request
    ensures { result ≡ request_of word }
{
    Request {
        class: class_of(word),
        kind: kind_of(word),
        bank: bank_of(word),
        rank: rank_of(word),
        tag: tag_of(word),
    }
}

// The bank of a request in its word. A rank above 3, which no word holds and 10 refuses, is told by a bank that 10 refuses too.
#[tactic(auto, unfolding(crate::specs::Word::bank_in_word))]
fn bank_in_word(r: Request) -> u32
    ensures { result ≡ bank_in_word r }
{
    if r.rank <= 3 { r.bank.min(15) } else { 15 }
}

// The word of a request. Of a number too large for its field, which document 01 leaves open, the largest of the field is taken: 9 or 10 refuses the word as it refuses
// the request.
#[tactic(auto, using(crate::proofs::Word::bank_fits), unfolding(crate::specs::Word::word_of))]
pub fn word_of(r: Request) -> u32
    ensures { result ≡ word_of r }
{
    2147483648
        + r.class.min(31) * 16777216
        + r.rank.min(3) * 4194304
        + r.kind.min(3) * 1048576
        + bank_in_word(r) * 65536
        + u32::from(r.tag)
}

// Whether a word has the form of an offer.
#[tactic(auto, unfolding(crate::specs::Word::is_offer))]
pub fn is_offer(word: u32) -> bool
    ensures { result ≡ is_offer word }
{
    word / 536870912 == 4
}

// 9: the class is below the class count.
#[tactic(auto, unfolding(crate::specs::Word::class_fits))]
pub fn class_fits(classes: usize, r: Request) -> bool
    ensures { result ≡ class_fits classes r }
{
    order::is_class(classes, r.class as usize)
}

// 10: bank, kind and rank are in range, where there are so many ranks.
#[tactic(auto, unfolding(crate::specs::Word::bank_kind_rank_fit))]
pub fn bank_kind_rank_fit(ranks: u32, r: Request) -> bool
    ensures { result ≡ bank_kind_rank_fit ranks r }
{
    (r.bank <= 7) & (r.kind <= 1) & (r.rank < ranks)
}

// Whether a stored word is that of a request which 9 and 10 do not refuse.
// Kept: class count and ranks side by side, as the definition of the same name takes them.
#[tactic(auto, unfolding(crate::specs::Word::sound_word))]
pub fn sound_word(classes: usize, ranks: u32, word: u32) -> bool
    ensures { result ≡ sound_word classes ranks word }
{
    let r = request_of(word);
    is_offer(word) & class_fits(classes, r) & bank_kind_rank_fit(ranks, r)
}

// The command's number in the log: the request's word, with bit 30 set for a column command, and 0 for none. Of a request with a number too large for its field, which
// document 01 leaves open, it is the word that `word_of` gives.
#[tactic(auto, using(crate::proofs::Word::word_fits), unfolding(crate::specs::Word::command_number, crate::specs::Word::column_number))]
pub fn command_number(wires: Wires) -> u32
    ensures { result ≡ command_number wires }
{
    match wires {
        Wires::Nothing => 0,
        Wires::Activate(r) => word_of(r),
        Wires::Column(r) => word_of(r) + COLUMN,
    }
}

// The wires that a command's number says.
#[tactic(auto, unfolding(crate::specs::Word::wires_of))]
pub fn wires_of(command: u32) -> Wires
    ensures { result ≡ wires_of command }
{
    if command == 0 {
        return Wires::Nothing;
    }
    let r = request_of(command);
    if is_offer(command) {
        return Wires::Activate(r);
    }
    Wires::Column(r)
}
