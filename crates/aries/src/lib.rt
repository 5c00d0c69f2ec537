// ARIES punch code: the types that a program text is read into and carried out with.
// What they mean is said by the definitions in specs/, which follow document 01 in its order.
#![tactic(auto)]

pub mod block; // what a block asks for
pub mod entry; // the entries of the list
pub mod job; // what the caller fixes
pub mod location; // places of the text
pub mod machine; // the two machines and their punching range
pub mod macros; // the bodies that are stored
pub mod mirror; // how a frame is seen while mirrors are open
pub mod point; // points of the sheet
pub mod reader; // what a block is read by
pub mod refusal; // the refusals by their numbers
pub mod setup; // what only blocks outside bodies change
pub mod state; // what one block leaves to the next
pub mod theorems; // what is proved of the definitions alone
pub mod word; // the words of a block
