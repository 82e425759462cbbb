// Code laid at chosen addresses, as a linker places it, matches its own pattern. The definitions stand in specs/, the laws in proofs/. There is nothing here to run.
#![tactic(auto)]
