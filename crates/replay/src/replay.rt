// The replay of a transcript.
ghost use Rattle.std.specs.Prelude.{◌≡◌, ◌≤◌};
ghost use Rattle.state.specs.InnerSizes.{AllSized, lent_lengths};
ghost use Rattle.picture.specs.InnerLent.{contents, with_contents};
ghost use Rattle.macroblock.specs.Entry.{state_before, state_after};
ghost use Rattle.macroblock.specs.InnerSource.{state_by};
ghost use Rattle.replay.specs.Replay.{replayed, quantiser_of, replay_left};
ghost use Rattle.replay.specs.InnerRecorded.{Recorded, all_left};

use crate::ReplayReport;
use crate::redo::replay_record;
use picture::{Picture, Reference};
use refusal::Refusal;
use state::{Frame, Lengths, ask_replay};
use transcript::check::check_records;

// The work of all records of a transcript that passed the check; answers the quantiser afterwards.
// Not inlined: what records are read into then lies where the check had its own, and not beside it on the stack.
#[inline(never)]
fn replay_records(
    pic: &mut Picture,
    reference: Reference,
    bytes: &[u8],
    frame: Frame,
    quantiser: u32,
) -> u32
    requires cols_bound { (frame.grid.cols ≤ 4096) × (frame.grid.rows ≤ 4096) × Recorded frame.grid.cols frame.grid.rows bytes.now }
    requires all_sized { AllSized frame.grid.cols frame.grid.rows (lent_lengths (contents pic.old) reference) }
    ensures left { state_by frame result reference.entry (contents pic.new)
        ≡ all_left (state_by frame quantiser reference.entry (contents pic.old)) bytes.now }
    ensures same_slices { pic.new ≡ with_contents pic.old (contents pic.new) }
{
    let mut q = quantiser;
    let mut at = 0;
    // a record says where the next one begins: no range counts them
    while at < bytes.len() {
        let step = replay_record(pic, reference, bytes, frame, q, at);
        q = step.quantiser;
        at = step.next;
    }
    q
}

// Reads a transcript from a start and does each record's work: all records are checked before anything changes. Slices and numbers come one by one, as a C host has them.
pub fn replay(
    y: &mut [u8],
    cb: &mut [u8],
    cr: &mut [u8],
    mv: &mut [i32],
    marks: &mut [u8],
    ry: &[u8],
    rcb: &[u8],
    rcr: &[u8],
    bytes: &[u8],
    frame: Frame,
    quantiser: u32,
) -> Result<ReplayReport, Refusal>
    ensures { replay_left result (state_after frame (quantiser_of quantiser result) ry rcb rcr y cb cr mv marks)
        ≡ replayed (state_before frame quantiser ry rcb rcr y cb cr mv marks) bytes.now }
{
    let mut pic = Picture {
        y,
        cb,
        cr,
        mv,
        marks,
    };
    let reference = Reference {
        y: ry,
        cb: rcb,
        cr: rcr,
    };
    let l = Lengths::of(&pic, reference);
    ask_replay(frame.grid, l, quantiser)?;
    let records = check_records(bytes, frame.grid)?;
    let quantiser = replay_records(&mut pic, reference, bytes, frame, quantiser);
    Ok(ReplayReport { records, quantiser })
}
