// Theorems about why calls are refused, in the terms that code tests: numbers of the tables, in the order of the refusals.
// There is no code here: the statements and their proofs stand in specs/.
#![tactic(auto)]
