#![tactic(auto)]
// One inter macroblock read from the bits.
pub mod svq3_frame;
