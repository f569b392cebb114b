#![tactic(auto)]
// One macroblock, and a run, from the caller's own record of place and quantiser, which moves on. Slices come one by one, as in the entries that these call.
pub mod svq3_frame;

ghost use Rattle.std.specs.Prelude.{◌≡◌};
ghost use Rattle.macroblock.specs.Entry.{state_before, state_after};
ghost use Rattle.run.specs.Left.{run_left, list_left};
ghost use Rattle.thin.specs.Cursor.{cursor_of};

use run::Report;
use run::run::run;
use state::{Cursor, Frame};

// A run from the caller's own place and quantiser, which move on past the accepted calls.
pub fn run_at(
    y: &mut [u8],
    cb: &mut [u8],
    cr: &mut [u8],
    mv: &mut [i32],
    marks: &mut [u8],
    transcript: &mut [u8],
    ry: &[u8],
    rcb: &[u8],
    rcr: &[u8],
    bits: &[u8],
    list: &[u8],
    cursor: &mut Cursor,
    frame: Frame,
) -> Report
    ensures { (run_left result (state_after frame result.quantiser ry rcb rcr y cb cr mv marks) transcript.new
        ≡ list_left (state_before frame cursor.old.quantiser ry rcb rcr y cb cr mv marks) list.now bits.now cursor.old.place transcript.old)
        × (cursor.new ≡ cursor_of result) }
{
    let place = cursor.place;
    let quantiser = cursor.quantiser;
    let report = run(
        y, cb, cr, mv, marks, transcript, ry, rcb, rcr, bits, list, frame, quantiser, place,
    );
    *cursor = report.cursor();
    report
}
