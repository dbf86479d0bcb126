// Theorems about histories: from fresh tables, over anything that may be asked, the log is the truth. The statements
// stand in the rules' Truth; here are their proofs. There is no code here.
#![tactic(auto)]
