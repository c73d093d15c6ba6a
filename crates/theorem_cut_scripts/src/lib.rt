// A script that is cut short, for every entry on the ports. No code.
#![tactic(auto)]
