// The timing: its numbers and their bounds.

#![tactic(auto)]

ghost use Rattle.std.specs.Prelude.{◌≡◌, get_or};
ghost use Rattle.basics.specs.Below.{every};
ghost use Rattle.timing.specs.Timing.{within, rank_within, timing_sound};

// The numbers of the timing body. A kind is 0 for a read and 1 for a write.
#[derive(Clone, Copy)]
pub struct Timing {
    // The lengths of a turn and of its dead time, in cycles.
    pub turn: u32,
    pub dead: u32,
    // The gap between two activates, at twice the earlier's kind plus the later's: read-read, read-write, write-read, write-write.
    pub gaps: [u32; 4],
    // The gap between two activates of one bank, at the earlier's kind.
    pub bank: [u32; 2],
    // From an activate to its column command, and to its response. Document 01: the column delay and the answer delay.
    pub column: u32,
    pub response: u32,
    // How many ranks there are, and the gap between two activates on different ranks: four ranks where the timing body has an eleventh byte, which is that gap; without
    // it one rank, and 0.
    // Kept: two numbers and no Option of the gap, since a timing with four ranks and no gap, or with one and a gap, can be given, and 8 refuses it (`rank_within` in specs/Timing.antt).
    pub ranks: u32,
    pub rank: u32,
}

// Kept: the library's `contains` as the definition `within`, which the clauses of the functions below are made of.
#[tactic(auto, unfolding(crate::specs::Timing::within))]
fn is_within(low: u32, x: u32, high: u32) -> bool
    ensures { result ≡ within low x high }
{
    (low..=high).contains(&x)
}

// Each gap is 1 to the dead time.
fn all_within<const N: usize>(gaps: [u32; N], dead: u32) -> bool
    ensures { result ≡ every N (λ i. within 1 (get_or gaps.entry i 0) dead) }
{
    gaps.iter().all(|gap| is_within(1, *gap, dead))
}

// Four ranks have a gap between them, and one has none.
#[tactic(auto, unfolding(crate::specs::Timing::rank_within))]
fn rank_within(ranks: u32, rank: u32, dead: u32) -> bool
    ensures { result ≡ rank_within ranks rank dead }
{
    (ranks == 1) & (rank == 0) | (ranks == 4) & is_within(1, rank, dead)
}

// 8: every number of the timing is within its bounds.
#[tactic(auto, unfolding(basics::specs::Below::every, crate::specs::Timing::timing_sound, crate::specs::Timing::gaps_within, crate::specs::Timing::bank_within))]
pub fn timing_sound(t: Timing) -> bool
    ensures { result ≡ timing_sound t }
{
    let dead = t.dead;
    is_within(2, t.turn, 255)
        & is_within(2, dead, 31)
        & (dead < t.turn)
        & all_within(t.gaps, dead)
        & all_within(t.bank, dead)
        & is_within(2, t.response, dead)
        & is_within(1, t.column, t.response.saturating_sub(1))
        & rank_within(t.ranks, t.rank, dead)
}
