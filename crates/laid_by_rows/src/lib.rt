// The rows of a text's records and its records themselves: the conditions over the one are those over the other, and what is laid is the same. The laws stand in proofs/. There is nothing here to run.
#![tactic(auto)]
