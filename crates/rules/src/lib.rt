// The rules: what a turn's start, a tick, an offer and a list of calls do to a state, and what holds of them. They are definitions and laws, so there is no code here; the
// crate `scheduler` does what they say.

#![tactic(auto)]
