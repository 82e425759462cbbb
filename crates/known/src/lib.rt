// Known bits: what the area rows of an accepted text say of its masks. The statement stands in specs/, its proof in proofs/. There is nothing here to run.
#![tactic(auto)]
