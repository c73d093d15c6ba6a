// The table of worked positions, held against the definitions of every layer. No code.
#![tactic(auto)]
