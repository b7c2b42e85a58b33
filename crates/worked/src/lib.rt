// Document 01's worked turns: what the rules yield in its cases (a) to (h), and in those of W-202 and W-209, from a file's bytes to the log. It is about the definitions alone, so there is no code here.

#![tactic(auto)]
