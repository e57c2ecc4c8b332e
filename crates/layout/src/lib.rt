// Component data laid out from its numbers. The definitions and theorems stand in specs/ and proofs/.
#![tactic(auto)]
