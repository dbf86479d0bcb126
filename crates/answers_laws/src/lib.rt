// Theorems about the answers: each number is given exactly when its fact holds and none earlier in its order does.
// There is no code here: the statements and their proofs stand in specs/.
#![tactic(auto)]
