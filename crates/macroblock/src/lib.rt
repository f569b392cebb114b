#![tactic(auto)]
// One inter macroblock, its mode given: asked, read, written, applied. The definition of a call is specs/Decode.antt.
pub mod svq3_frame;

ghost use Rattle.std.specs.Prelude.{◌≡◌};
ghost use Rattle.macroblock.specs.Entry.{cursor_by};

use picture::Reference;
use refusal::Refusal;
use state::{Cursor, Frame};

// What a call is decoded from, and only read.
#[derive(Clone, Copy)]
pub struct Source<'a> {
    pub frame: Frame,
    pub reference: Reference<'a>,
    pub bits: &'a [u8],
}

// What an accepted call leaves: the place after it, the quantiser and the transcript's fill; and how many components it clipped.
#[derive(Clone, Copy)]
pub struct MbReport {
    pub place: usize,
    pub quantiser: u32,
    pub fill: usize,
    pub clipped: u32,
}

// Where a call leaves the caller: past an accepted macroblock, where it was at a refusal. No `From`: the place before the call is needed too.
pub fn cursor_by(place: usize, quantiser: u32, answer: Result<MbReport, Refusal>) -> Cursor
    ensures { result ≡ cursor_by place quantiser answer }
{
    match answer {
        Ok(report) => Cursor {
            place: report.place,
            quantiser: report.quantiser,
        },
        Err(_) => Cursor { place, quantiser },
    }
}
