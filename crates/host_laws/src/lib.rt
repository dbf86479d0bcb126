// Theorems about the words that a host has: after any exported calls from a fresh call on, they are what the grown tables
// pack to. There is no code here: the statement stands in the rules' Truth, its proof here.
#![tactic(auto)]
