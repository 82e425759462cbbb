// The ASxxxx manual's line forms and mode bits, as theorems on the definition's readers: see specs/ and proofs/. There is nothing here to run.
#![tactic(auto)]
