// The situations of document 01 stand in proofs/.
#![tactic(auto)]
