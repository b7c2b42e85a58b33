// What the extract for a set of classes shows (W-211): of one class, of none, of its members, and of a set within another. It is about the definitions alone, so there is no code here.

#![tactic(auto)]
