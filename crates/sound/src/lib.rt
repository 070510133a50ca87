// Demand 3: theorems that the generator's programs mean what the filter says. There is no code here.
#![tactic(auto)]
