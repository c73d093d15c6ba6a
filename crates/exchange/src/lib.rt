// What an operation on the ports means: definitions and laws, no code.
#![tactic(auto)]
