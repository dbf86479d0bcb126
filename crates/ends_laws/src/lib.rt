// Laws of the words that commit, undo, settle, crash, restart and fresh write: they are what the rules' steps pack to.
// There is no code here: the statements and their proofs stand in specs/.
#![tactic(auto)]
