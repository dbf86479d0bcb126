// The rules of the early-release tables as definitions that compute, in the order and the words of the users' scope
// paper (document 01). There is no code here: specs/ holds the definitions, specs/Lib.antt their reading order. The
// crates above hold the theorems about them and the code.
#![tactic(auto)]
