// Laws of the words that start, the lock, the working value, prepare and save write: they are what the rules' steps pack to.
// There is no code here: the statements and their proofs stand in specs/.
#![tactic(auto)]
