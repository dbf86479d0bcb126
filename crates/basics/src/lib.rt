// Laws of the small words that the rules are written in: tests over a range, lists and sets, each for every width.
// There is no code here: the statements and their proofs stand in specs/.
#![tactic(auto)]
