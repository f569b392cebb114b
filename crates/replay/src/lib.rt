#![tactic(auto)]
// The replay of a transcript.
pub mod redo;
pub mod replay;

// The number of records, and the quantiser after them.
#[derive(Clone, Copy)]
pub struct ReplayReport {
    pub records: usize,
    pub quantiser: u32,
}
