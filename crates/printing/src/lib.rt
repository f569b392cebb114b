#![tactic(auto)]
// The printer: its input, its lines, what it prints.
pub mod header;
pub mod print;
pub mod text;
