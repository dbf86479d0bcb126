// Growing tables from fresh: what holds of fresh tables and is carried on by whatever is asked holds of all grown
// tables with their history. There is no code here: the statements and their proofs stand in specs/.
#![tactic(auto)]
