// One record of a transcript, its work done again.
ghost use Rattle.std.specs.Prelude.{◌≡◌, ◌≤◌, drop, Ok};
ghost use Rattle.state.specs.InnerSizes.{AllSized, lent_lengths};
ghost use Rattle.transcript.specs.InnerParsing.{place_answer};
ghost use Rattle.transcript.specs.InnerPlace.{parse_place};
ghost use Rattle.picture.specs.InnerLent.{contents, with_contents};
ghost use Rattle.macroblock.specs.InnerSource.{state_by};
ghost use Rattle.replay.specs.InnerStepped.{Stepped};

use apply::Coded;
use apply::applied::{apply_coded, apply_skip};
use picture::{Picture, Reference};
use record::Head;
use state::Frame;
use transcript::parse::{RecordStart, parse_motion, parse_place};

// The quantiser after a record, and the place behind it: one of bytes, and so no `Cursor`.
#[derive(Clone, Copy)]
pub struct Step {
    pub quantiser: u32,
    pub next: usize,
}

// `AllSized` ties the picture and the reference to the grid, and each record writes the picture: in a struct it would be shown anew at every write.
// A grid of at most 4,096 a side is a clause, since `Frame` holds whatever grid an entry is given.
// The work of the record at `at`, which is no skip: its place and mode end at `before.next`, and `before.quantiser` is the one before it.
fn replay_coded(
    pic: &mut Picture,
    reference: Reference,
    bytes: &[u8],
    frame: Frame,
    at: usize,
    head: Head,
    before: Step,
) -> Step
    requires cols_bound { (frame.grid.cols ≤ 4096) × (frame.grid.rows ≤ 4096) × (Ok (RecordStart.Coded head, before.next) ≡ place_answer at (parse_place frame.grid.cols frame.grid.rows (drop at bytes.now))) }
    requires all_sized { AllSized frame.grid.cols frame.grid.rows (lent_lengths (contents pic.old) reference) }
    ensures stepped { Stepped bytes.now at result.next (state_by frame before.quantiser reference.entry (contents pic.old))
        (state_by frame result.quantiser reference.entry (contents pic.new)) }
    ensures same_slices { pic.new ≡ with_contents pic.old (contents pic.new) }
    ensures sized { AllSized frame.grid.cols frame.grid.rows (lent_lengths (contents pic.new) reference.entry) }
{
    let mut vectors = [0i32; 32];
    let mut levels = [0i32; 392];
    let Ok((head, next)) = parse_motion(&mut vectors, &mut levels, bytes, before.next, head) else {
        return before;
    };
    let coded = Coded {
        grid: frame.grid,
        head,
        vectors: &vectors,
        levels: &levels,
    };
    apply_coded(pic, reference, coded);
    let quantiser = head.quantiser;
    Step { quantiser, next }
}

// The work of the record at `at`. A skip needs no vectors and no levels.
pub fn replay_record(
    pic: &mut Picture,
    reference: Reference,
    bytes: &[u8],
    frame: Frame,
    quantiser: u32,
    at: usize,
) -> Step
    requires cols_bound { (frame.grid.cols ≤ 4096) × (frame.grid.rows ≤ 4096) }
    requires all_sized { AllSized frame.grid.cols frame.grid.rows (lent_lengths (contents pic.old) reference) }
    ensures stepped { Stepped bytes.now at result.next (state_by frame quantiser reference.entry (contents pic.old))
        (state_by frame result.quantiser reference.entry (contents pic.new)) }
    ensures same_slices { pic.new ≡ with_contents pic.old (contents pic.new) }
    ensures sized { AllSized frame.grid.cols frame.grid.rows (lent_lengths (contents pic.new) reference.entry) }
{
    match parse_place(bytes, at, frame.grid) {
        Ok((RecordStart::Skip(column, row), next)) => {
            apply_skip(pic, reference, frame.grid, column as usize, row as usize);
            Step { quantiser, next }
        }
        Ok((RecordStart::Coded(head), next)) => {
            let before = Step { quantiser, next };
            replay_coded(pic, reference, bytes, frame, at, head, before)
        }
        Err(_) => Step {
            quantiser,
            next: at,
        },
    }
}
