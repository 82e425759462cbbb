// Which positions of the kept areas some line writes. The definition stands in specs/, the theorems in proofs/. There is nothing here to run.
#![tactic(auto)]
