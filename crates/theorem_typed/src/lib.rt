// Typed text, read by the handler: its press events have the text's characters. No code.
#![tactic(auto)]
