// Demand 3: what a cut text gives. The statement stands in specs/, its proof in proofs/. There is nothing here to run.
#![tactic(auto)]
