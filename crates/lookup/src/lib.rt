// What commands look up of a loaded file stands in specs/ (the commands by the bytes) and proofs/.
#![tactic(auto)]
