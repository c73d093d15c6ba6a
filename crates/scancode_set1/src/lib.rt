// Scan code set 1, as the wiki lists it, and that the keycodes go by it. No code.
#![tactic(auto)]
