// What is turned down, and its number: document 01's table, and what W-204 and W-208 add to it.

#![tactic(auto)]

ghost use Rattle.std.specs.Prelude.{◌≡◌};
ghost use Rattle.refusals.specs.Refusal.{number, status_of};

// Why a file, a policy or a question is turned down, where the answer is a Result: each with its number in the table.
#[derive(Clone, Copy)]
pub enum Refusal {
    // The file's size or its contents table.
    Contents = 1,
    // The class count, or the length of a body.
    Lengths = 2,
    // A row has a bit past the classes or lacks its own; two classes flow to each other; the order is not transitive; there is no least class.
    Rows = 3,
    Antisymmetry = 4,
    Transitivity = 5,
    LeastClass = 6,
    // The epoch or the minimums; a number of the timing.
    Turns = 7,
    Timing = 8,
    // No class of the policy.
    Class = 9,
    // Past the last cycle.
    LastCycle = 12,
    // A state or a policy that is handed in has numbers out of range.
    OutOfRange = 13,
    // Too little room for what is to be written.
    Room = 16,
    // The log is not four times as long as the trace.
    LogLength = 17,
    // W-208: a small order of so many classes is not listed.
    SmallOrder = 20,
}

impl Refusal {
    // The number in the table.
    // Kept: a method and no `From`: it is the definition of the same name.
    #[tactic(auto, unfolding(crate::specs::Refusal::number))]
    pub fn number(self) -> u32
        ensures { result ≡ number self }
    {
        self as u32
    }
}

// The status of an answer: 0, or the number of what turned it down.
#[tactic(auto, unfolding(crate::specs::Refusal::status_of))]
pub fn status_of<T: Copy>(answer: Result<T, Refusal>) -> u32
    ensures { result ≡ status_of answer }
{
    match answer {
        Ok(_) => 0,
        Err(refusal) => refusal.number(),
    }
}
