// What every crate's definitions and proofs say of numbers below a bound, truth values, stores and loops. It speaks of no class and no call, and there is no code here.

#![tactic(auto)]
