// Theorems about frames: a frame read and written back is the same frame, a call written as a frame reads back as that
// call. There is no code here: the statements and their proofs stand in specs/.
#![tactic(auto)]
