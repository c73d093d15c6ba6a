// The library that others link: every operation that a table needs, for C or Rust. Each function is
// one of a layer below, with its contract.
// No proof of it assumes anything (docs/TRUST.md).
// C passes numbers, and pointers with lengths; so kinds are numbers here, and scripts, logs and
// records slices. Each export stands by itself, and once for each report, since C has no generics
// and a static library has its own crate's exports alone (docs/DECISIONS.md).
#![tactic(auto)]

mod byte_exports;
mod controller;
mod dispatcher_exports;
mod handler;
mod keyboard_exports;
mod mouse;
mod preferences_exports;
mod reports;
mod steps;
