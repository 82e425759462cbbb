// Laws about the definition, for the proofs of code to cite: see specs/ and proofs/. There is nothing here to run.
#![tactic(auto)]
