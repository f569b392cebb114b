#![tactic(auto)]
// Asks the parts of the decoder what the published Rust was asked, and prints how many answers differ.
// tools/reference/README.md has the list's form: records of a head of 32 bytes, the bytes given, the bytes answered.
mod added;
mod block;
mod head;
mod reading;

use crate::head::{Head, Question};
use bits::Bits;
use compensation::svq3_mc::{motion_compensate_block, motion_compensate_chroma_block};
use std::fmt;

// The plane of the blocks that follow: the first `size` samples.
// A buffer and a length, since there is no heap: the plane outlives the question that gave it, and the next plane is read into the same bytes, which no slice could lend meanwhile.
#[derive(Drop)]
struct Plane {
    width: usize,
    height: usize,
    size: usize,
    samples: [u8; 480],
}

impl Plane {
    fn take(&mut self, width: usize, height: usize, size: usize) -> bool {
        self.width = width;
        self.height = height;
        self.size = size;
        lists::read(&mut self.samples, size).is_some()
    }
}

// How many questions there were, and how many were answered otherwise.
// `films` has its own: a form for both would keep the counts in an array and their words in a table, and no count would have a name.
#[derive(Clone, Copy, Default)]
struct Counts {
    bits: u64,
    samples: u64,
    differ: u64,
}

impl Counts {
    fn count(&mut self, question: Option<Question>, same: bool) {
        match question {
            Some(Question::Bits { .. }) => self.bits = self.bits.saturating_add(1),
            Some(Question::Plane { .. }) | None => {}
            Some(_) => self.samples = self.samples.saturating_add(1),
        }
        self.differ = self.differ.saturating_add(u64::from(!same));
    }
}

impl fmt::Display for Counts {
    fn fmt<W: fmt::Write>(&self, f: &mut fmt::Formatter<W>) -> fmt::Result {
        let bits = self.bits;
        let samples = self.samples;
        let differ = self.differ;
        write!(
            f,
            "{bits} questions about bits, {samples} about samples, {differ} differ"
        )
    }
}

// Whether the answer is the published one. A question that is not whole, or not known, differs. A plane is taken by a whole head alone.
fn agrees(head: Head, whole: bool, question: Option<Question>, plane: &mut Plane) -> bool {
    if let Some(Question::Plane { width, height }) = question
        && whole
    {
        return plane.take(width, height, head.given());
    }
    let mut given = [0u8; 480];
    let mut answered = [0u8; 256];
    let Some(given) = lists::read(&mut given, head.given()) else {
        return false;
    };
    let Some(answered) = lists::read(&mut answered, head.answered()) else {
        return false;
    };
    match question {
        Some(
            Question::Bits {
                reader,
                at,
                expected,
            },
        ) => reading::agrees(reader, at, expected, Bits { bytes: given }, answered),
        Some(Question::LumaBlock(block)) => {
            block::agrees(motion_compensate_block, block, plane, answered)
        }
        Some(Question::ChromaBlock(block)) => {
            block::agrees(motion_compensate_chroma_block, block, plane, answered)
        }
        Some(Question::LumaResidual { quantiser }) => added::luma_agrees(
            quantiser, given, answered,
        ),
        Some(Question::ChromaResidual { quantiser }) => added::chroma_agrees(
            quantiser, given, answered,
        ),
        Some(Question::Plane { .. }) | None => false,
    }
}

fn main(rt: HostRuntime) {
    let mut plane = Plane {
        width: 0,
        height: 0,
        size: 0,
        samples: [0; 480],
    };
    let mut counts = Counts::default();
    for _ in 0..lists::count() {
        let mut head = Head([0; 32]);
        let whole = lists::read(&mut head.0, 32).is_some();
        let question = head.question();
        let same = agrees(head, whole, question, &mut plane);
        counts.count(question, whole & same);
    }
    // Where the line cannot be written, it is missed by whoever compares what was printed.
    let _ = println!(rt; "{counts}");
}
