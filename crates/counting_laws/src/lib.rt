// Counting a set's members and finding the lowest, shown once for every width.
// There is no code here: the statements and their proofs stand in specs/.
#![tactic(auto)]
