// What it is for a contract to allow one answer only: a definition and laws, in proofs/. There is no code here.
#![tactic(auto)]
