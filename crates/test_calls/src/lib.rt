// Calls for tests and measuring alone (beside/): the operations that the library `vurdellow`
// doesn't export, and handler calls and dispatcher's steps in a row. Nothing else links this.
#![tactic(auto, unfolding(bits::specs::Table::decode))]

mod arguments;
mod devices;
mod polling;
mod records;
mod rows;
