// With which reason a cut text is told. The statement stands in specs/, its proof in proofs/. There is nothing here to run.
#![tactic(auto)]
