// What is promised of recordings held together (W-204): that the rest begins at the first event without a partner, and that a run's log, cut at both ends where nothing is in flight, matches fully. It is about the definitions
// alone, so there is no code here.

#![tactic(auto)]
