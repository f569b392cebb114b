#![tactic(auto)]
// Pattern, level and run, lists of levels.
mod digits;
pub mod items;
pub mod short_codes;
pub mod svq3_cbp;
pub mod svq3_coeff;
pub mod svq3_scan;
