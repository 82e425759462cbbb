// A module of any radix written as X. The definition stands in specs/, the theorem in proofs/. There is nothing here to run.
#![tactic(auto)]
