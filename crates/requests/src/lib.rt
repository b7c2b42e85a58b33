// Requests: a request and its word, what the command wires carry, what a tick shows, and the words of a trace told apart.

#![tactic(auto)]

ghost use Rattle.std.specs.Prelude.{◌≡◌};
ghost use Rattle.requests.specs.Trace.{call_of};

pub mod words;

// The banks of a rank, numbered from 0, and those of all four ranks.
pub const BANK_COUNT: usize = 8;

pub const BANK_PLACES: usize = 32;

// The last cycle: a tick there is refused with 12.
pub const LAST_CYCLE: u32 = 16777215;

// A request, as an offer makes it.
// Kept: kind, bank and rank are numbers and no enums, since an offer with a kind above 1, a bank above 7 or a rank that is not there can be made: 10 refuses it (`bank_kind_rank_fit`, edits kind_2_fits, bank_8_fits).
#[derive(Clone, Copy)]
pub struct Request {
    pub class: u32,
    // 0 is a read, 1 a write.
    pub kind: u32,
    pub bank: u32,
    // 0 to 3, where the policy has four ranks, and 0 where it has one.
    pub rank: u32,
    pub tag: u16,
}

// What the command wires carried in a tick.
// Kept: document 01 names this form, an enum of the wires' states whose cases carry the request.
#[derive(Clone, Copy)]
pub enum Wires {
    Nothing,
    Activate(Request),
    // Document 01: a column command.
    Column(Request),
}

// What a tick shows.
// Kept: the response and the turn are the log's own numbers, as document 01 has them with 0 for none, and as `calls::tick` reads them from the log.
#[derive(Clone, Copy)]
pub struct Record {
    pub wires: Wires,
    // The word of the response, 0 for none. Document 01: the answer.
    pub response: u32,
    // 0 unless a turn starts, then 1 and the owner, and 256 more if its dead time is elided.
    pub turn: u32,
}

// What a trace word is.
// Kept: no Option or Result of a request: a tick and a malformed word are two answers apart, and neither is an error here, but 14 of the run.
#[derive(Clone, Copy)]
pub enum Call {
    Tick,
    Offer(Request),
    // Of neither form.
    Malformed,
}

// A trace word told apart: 0 is a tick; a word that has the form of an offer is one, whatever its class, bank, kind and rank.
// Kept: a function and no `From`: it is the definition of the same name, which the crates above cite.
#[tactic(auto, unfolding(crate::specs::Trace::call_of))]
pub fn call_of(word: u32) -> Call
    ensures { result ≡ call_of word }
{
    if word == 0 {
        return Call::Tick;
    }
    if words::is_offer(word) {
        let r = words::request_of(word);
        return Call::Offer(r);
    }
    Call::Malformed
}
