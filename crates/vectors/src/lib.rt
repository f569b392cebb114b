#![tactic(auto)]
// Partitions, precision, the predictor and units of vectors.
pub mod svq3_frame;
pub mod svq3_mb;
pub mod window;
