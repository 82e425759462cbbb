// The order of lines: what one pair writes, and when pairs may be placed in another order. The definitions stand in specs/, the theorems in proofs/. There is nothing here to run.
#![tactic(auto)]
