// The history rule read over a set 2 stream, where the
// counted scancodes are a converted one. No code.
#![tactic(auto)]
