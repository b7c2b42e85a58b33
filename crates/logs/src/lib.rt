// The log: a run reads a trace and writes its log.

#![tactic(auto)]

ghost use Rattle.std.specs.Prelude.{◌≡◌};
ghost use Rattle.rules.specs.Run.{run, log_after};

use policy::Policy;
use state::{Ran, State};

// A run over a trace: 13, 15; else each trace number's call in order, whose four numbers go into the log. Numbers past them stay, and a refused run writes nothing.
// The loop stands in the scheduler, beside what it works on in place.
// Kept: a second name, since document 01 names the log's crate.
pub fn run(p: Policy, s: State, trace: &[u32], log: &mut [u32]) -> Ran
    ensures value { result ≡ run p s trace.now log.old }
    ensures log_after { log.new ≡ log_after p s trace.now log.old }
{
    scheduler::run(p, s, trace, log)
}
