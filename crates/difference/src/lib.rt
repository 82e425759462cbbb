// What changed between two modules: the definition stands in specs/, its theorems in proofs/. There is nothing here to run.
#![tactic(auto)]
