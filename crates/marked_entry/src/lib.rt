// The entry that `covering` finds for a position is the one whose cell the pair writes there. The theorems stand in proofs/. There is nothing here to run.
#![tactic(auto)]
