// Theorems about the layout: words and tables determine each other where they are sound.
// There is no code here: the statements and their proofs stand in specs/.
#![tactic(auto)]
