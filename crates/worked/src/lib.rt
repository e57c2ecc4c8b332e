// Cases that document 01 reckons by hand, and data that demand 3 speaks of, shown of the definitions. They stand in specs/ and proofs/.
#![tactic(auto)]
