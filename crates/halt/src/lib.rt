// Why and where the ended reading stopped. The definition stands in specs/, its laws in proofs/. There is nothing here to run.
#![tactic(auto)]
