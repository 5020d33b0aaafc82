// What holds of the rules stands in specs/ (statements) and proofs/.
#![tactic(auto)]
