// The history rule through the dispatcher: definitions in specs/, laws in proofs/; no code.
#![tactic(auto)]
