#![tactic(auto)]
// Records of a transcript: written, read back, checked. A writer and a reader take the bytes and a place apart, as the readers of bits do: the place is what they answer, and where a caller goes on.
pub mod check;
pub mod parse;
pub mod write;
