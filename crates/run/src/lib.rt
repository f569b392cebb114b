#![tactic(auto)]
// A list of calls, and a run of it. What a run says of itself is `Report`, its definition specs/Run.antt.
pub mod calls;
pub mod run;

ghost use Rattle.std.specs.Prelude.{◌≡◌, Ok};
ghost use Rattle.state.specs.Questions.{ask_run};
ghost use Rattle.run.specs.Left.{report_of};

use refusal::Refusal;
use state::{Cursor, Frame, Lengths, ask_run};

// What a run did: the accepted calls and the bits that they consumed, as made; then the place, the quantiser and the transcript's fill.
#[derive(Clone, Copy)]
pub struct Report {
    pub accepted: usize,
    pub consumed: usize,
    pub place: usize,
    pub quantiser: u32,
    pub fill: usize,
    // every call was made, or the refusal that stopped the run
    pub stop: Result<(), Refusal>,
}

impl Report {
    // That of a run from a place and a quantiser on, before its first call.
    pub fn new(place: usize, quantiser: u32) -> Self
        ensures { result ≡ report_of 0 0 place quantiser 0 (Ok tt) }
    {
        Report {
            accepted: 0,
            consumed: 0,
            place,
            quantiser,
            fill: 0,
            stop: Ok(()),
        }
    }

    // Where the run leaves the caller: behind its last accepted call.
    pub fn cursor(self) -> Cursor
        ensures { result ≡ record { place = self.place; quantiser = self.quantiser } }
    {
        Cursor {
            place: self.place,
            quantiser: self.quantiser,
        }
    }
}

// A run with no call: its questions are asked all the same.
pub fn run_nothing(frame: Frame, l: Lengths, quantiser: u32, size: usize, place: usize) -> Report
    ensures { result ≡ report_of 0 0 place quantiser 0 (ask_run frame.grid.cols frame.grid.rows l quantiser size place) }
{
    let stop = ask_run(frame.grid, l, quantiser, size, place);
    Report {
        stop,
        ..Report::new(place, quantiser)
    }
}
