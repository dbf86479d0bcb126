// Theorems about soundness: fresh tables are sound, and every call on sound tables leaves sound tables.
// There is no code here: the statements and their proofs stand in specs/.
#![tactic(auto)]
