// Demand 3: how near the answers are to the exact loss. The definitions and theorems stand in specs/ and proofs/.
#![tactic(auto)]
