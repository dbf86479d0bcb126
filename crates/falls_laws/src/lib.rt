// Theorems about who falls with an abort: exactly the transaction and those that reach it through dependencies.
// There is no code here: the statements and their proofs stand in specs/.
#![tactic(auto)]
