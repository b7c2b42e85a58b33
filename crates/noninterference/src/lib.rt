// Noninterference: what two lists of calls that agree for some classes have in common. It is about the definitions alone, so there is no code here.

#![tactic(auto)]
