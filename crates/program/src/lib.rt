// Lists of instructions and what running one comes to: definitions and theorems only, in specs/ and proofs/.
#![tactic(auto)]
