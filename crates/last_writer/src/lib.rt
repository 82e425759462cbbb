// Who wrote a position last, and what: told from the pairs alone. The definition stands in specs/, the theorems in proofs/. There is nothing here to run.
#![tactic(auto)]
