// The definition of the module format stands in specs/; there is nothing here to run.
#![tactic(auto)]
