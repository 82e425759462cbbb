// The rows of T and R records: a definition and its theorems, nothing to run.
#![tactic(auto)]
