// The run of a list: its calls, one after another, until one is refused.
ghost use Rattle.std.specs.Prelude.{◌≡◌};
ghost use Rattle.picture.specs.InnerLent.{contents, with_contents};
ghost use Rattle.macroblock.specs.Entry.{state_before, state_after};
ghost use Rattle.macroblock.specs.InnerSource.{state_of_source};
ghost use Rattle.run.specs.InnerLeft.{Listed, calls_left};
ghost use Rattle.run.specs.Left.{run_left, list_left};

use crate::calls::{check_calls, read_call};
use crate::{Report, run_nothing};
use macroblock::Source;
use macroblock::svq3_frame::decode_inter_mb;
use picture::{Picture, Reference};
use refusal::Refusal;
use state::{Cursor, Frame, Lengths};

// The calls of a list that is in form.
fn run_calls(
    pic: &mut Picture,
    transcript: &mut [u8],
    source: Source,
    list: &[u8],
    cursor: Cursor,
) -> Report
    requires { Listed list.now }
    ensures left { run_left result (state_of_source source.entry result.quantiser (contents pic.new)) transcript.new
        ≡ calls_left (state_of_source source.entry cursor.quantiser (contents pic.old)) list.now source.entry.bits.now cursor.place transcript.old }
    ensures same_slices { pic.new ≡ with_contents pic.old (contents pic.new) }
{
    let mut report = Report::new(cursor.place, cursor.quantiser);
    let mut at = 0;
    // a call says where the next one begins: no range counts them
    while at < list.len() {
        let Ok((call, next)) = read_call(list, at) else {
            report.stop = Err(Refusal::NumberForm);
            return report;
        };
        match decode_inter_mb(
            pic.y,
            pic.cb,
            pic.cr,
            pic.mv,
            pic.marks,
            transcript,
            source.reference.y,
            source.reference.cb,
            source.reference.cr,
            source.bits,
            source.frame,
            call,
            report.quantiser,
            report.place,
            report.fill,
        ) {
            Ok(mb) => {
                report.consumed += mb.place - report.place;
                report.place = mb.place;
                report.quantiser = mb.quantiser;
                report.fill = mb.fill;
                report.accepted += 1;
                at = next;
            }
            Err(why) => {
                report.stop = Err(why);
                return report;
            }
        }
    }
    report
}

// Makes the calls of a list in order, the first at the given bit place, and stops at the first refusal, keeping what earlier calls did.
// Slices and numbers come one by one, as a C host has them.
pub fn run(
    y: &mut [u8],
    cb: &mut [u8],
    cr: &mut [u8],
    mv: &mut [i32],
    marks: &mut [u8],
    transcript: &mut [u8],
    ry: &[u8],
    rcb: &[u8],
    rcr: &[u8],
    bits: &[u8],
    list: &[u8],
    frame: Frame,
    quantiser: u32,
    place: usize,
) -> Report
    ensures { run_left result (state_after frame result.quantiser ry rcb rcr y cb cr mv marks) transcript.new
        ≡ list_left (state_before frame quantiser ry rcb rcr y cb cr mv marks) list.now bits.now place transcript.old }
{
    match check_calls(list) {
        Ok(n) => {
            let mut pic = Picture {
                y,
                cb,
                cr,
                mv,
                marks,
            };
            let reference = Reference {
                y: ry,
                cb: rcb,
                cr: rcr,
            };
            if n == 0 {
                let l = Lengths::of(&pic, reference);
                return run_nothing(frame, l, quantiser, bits.len(), place);
            }
            let source = Source {
                frame,
                reference,
                bits,
            };
            run_calls(
                &mut pic,
                transcript,
                source,
                list,
                Cursor { place, quantiser },
            )
        }
        Err(why) => Report {
            stop: Err(why),
            ..Report::new(place, quantiser)
        },
    }
}
