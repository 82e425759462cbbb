// What a reading leaves in the lent buffers is the module that was read: stated in specs/, proved in proofs/. There is nothing here to run.
#![tactic(auto)]
