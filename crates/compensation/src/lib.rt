#![tactic(auto)]
// Motion compensation: blocks of a plane at a sixth of a sample's precision, past its edges too.
pub mod kernel;
pub mod mix;
pub mod plane;
pub mod svq3_mc;
pub mod tiles;
pub mod window;
