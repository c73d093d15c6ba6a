// A session makes its operation's path, and hands back what
// the one call on the whole script does. No code.
#![tactic(auto)]
