// The history rule: what every list of handler calls and
// queue takings leaves, as one theorem. No code.
#![tactic(auto)]
