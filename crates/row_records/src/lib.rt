// That the rows which a reading leaves in buffers stand for the records of the text. The statement stands in specs/, its proof in proofs/. There is nothing here to run.
#![tactic(auto)]
