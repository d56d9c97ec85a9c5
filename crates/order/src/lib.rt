// The theory of jobs on one buffer: definitions in specs/, theorems in proofs/. There is no code here.
#![tactic(auto)]
