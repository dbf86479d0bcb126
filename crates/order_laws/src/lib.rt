// Theorems about the order of the log: whoever's version a logged transaction found is earlier in the log, and some
// transaction can always commit. There is no code here: the statements stand in the rules' Truth, their proofs here.
#![tactic(auto)]
