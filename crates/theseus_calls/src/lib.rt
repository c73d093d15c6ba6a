// The Rust's own functions, as they stand once more in Rattle (theseus_ps2, theseus_keyboard, theseus_keycodes), on a script
// and a log: calls for tests alone (beside/). Nothing else links this.
#![tactic(auto, unfolding(bits::specs::Table::decode))]

mod answers;
mod arguments;
mod controller;
mod identity;
mod initialization;
mod keyboard_calls;
mod keys;
mod mouse_calls;
mod queue;
