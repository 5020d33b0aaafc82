// The situations of the change requests of document 02 stand in proofs/.
#![tactic(auto)]
