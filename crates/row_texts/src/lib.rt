// The module that rows of numbers stand for, and when its text gives those rows back: specs/ has the definitions, proofs/ the theorems. There is nothing here to run.
#![tactic(auto)]
