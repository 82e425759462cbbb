// The ended reading that takes a header of every radix. The definitions stand in specs/, the theorems in proofs/. There is nothing here to run.
#![tactic(auto)]
