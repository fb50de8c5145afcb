// Questions that are asked in order: the first whose answer is bad settles the outcome. What calls ask of their arguments is said by these.
#![tactic(auto)]
