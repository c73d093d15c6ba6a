// Two runs of handler calls in which a side's counted scancodes agree. No code.
#![tactic(auto)]
