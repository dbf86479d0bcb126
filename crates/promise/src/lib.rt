// Theorems about the whole promise: each answer number is given exactly when its fact holds and none earlier does, a
// refusal leaves what it must, no second answer fits, and hollow builds do not meet it.
// There is no code here: the statements and their proofs stand in specs/.
#![tactic(auto)]
