// What an H line tells of the number of areas and symbols, and whether the records agree. The definition stands in specs/, its laws in proofs/. There is nothing here to run.
#![tactic(auto)]
