#![tactic(auto)]
// Decodes macroblocks and makes runs and replays as the published Rust did, and prints how many end otherwise.
// tools/reference/README.md has the list's form: records of a head of 80 bytes, then what it says.
mod compare;
mod decoded;
mod head;
mod lend;
mod ran;
mod replayed;
mod start;

use crate::head::{Head, Record, Work};
use crate::start::{Planes, State};
use std::fmt;

// How many there were of each kind, and how many records ended otherwise.
// `parts` has its own: a form for both would keep the counts in an array and their words in a table, and no count would have a name.
#[derive(Clone, Copy, Default)]
struct Counts {
    macroblocks: u64,
    accepted: u64,
    refused: u64,
    runs: u64,
    stopped: u64,
    replays: u64,
    differ: u64,
}

impl Counts {
    fn count(&mut self, record: Option<Record>, same: bool) {
        self.differ = self.differ.saturating_add(u64::from(!same));
        let Some(Record::Film(film)) = record else {
            return;
        };
        let refused = u64::from(film.refusal.is_some());
        match film.work {
            Work::Macroblock(_) => {
                self.macroblocks = self.macroblocks.saturating_add(1);
                self.accepted = self.accepted.saturating_add(1 - refused);
                self.refused = self.refused.saturating_add(refused);
            }
            Work::Run(_) => {
                self.runs = self.runs.saturating_add(1);
                self.stopped = self.stopped.saturating_add(refused);
            }
            Work::Replay { .. } => self.replays = self.replays.saturating_add(1),
        }
    }
}

impl fmt::Display for Counts {
    fn fmt<W: fmt::Write>(&self, f: &mut fmt::Formatter<W>) -> fmt::Result {
        let macroblocks = self.macroblocks;
        let accepted = self.accepted;
        let refused = self.refused;
        let runs = self.runs;
        let stopped = self.stopped;
        let replays = self.replays;
        let differ = self.differ;
        writeln!(
            f,
            "{macroblocks} macroblocks, each by value and by the thin entry, {accepted} accepted, {refused} refused"
        )?;
        writeln!(
            f,
            "{runs} runs, each by value and by the thin entry, {stopped} stopped"
        )?;
        writeln!(f, "{replays} replays")?;
        write!(f, "{differ} differ")
    }
}

// A start, or what is made from it. A kind that is not known differs.
fn agrees(state: &mut State, reference: &mut Planes, record: Option<Record>) -> bool {
    match record {
        Some(Record::Start(n)) => {
            let n = n % 256;
            reference.take(n) & state.take(n)
        }
        Some(Record::Cells(n)) => state.take_cells(n % 256),
        Some(Record::Film(film)) => compare::film_agrees(state, reference, &film),
        None => false,
    }
}

// The largest grid has six macroblocks; a slice may be lent longer than that. A record whose head is not whole differs.
fn main(rt: HostRuntime) {
    let mut state = State::new();
    let mut reference = Planes::new();
    let mut counts = Counts::default();
    for _ in 0..lists::count() {
        let mut head = Head([0; 80]);
        let whole = lists::read(&mut head.0, 80).is_some();
        let record = head.record();
        let same = agrees(&mut state, &mut reference, record);
        counts.count(record, whole & same);
    }
    // Where the line cannot be written, it is missed by whoever compares what was printed.
    let _ = println!(rt; "{counts}");
}
