// The head of a record, read once (tools/reference/README.md has its form).
ghost use Rattle.std.specs.Prelude.{◌≤◌};

use lists::{Told, u16_at, u32_at, u64_at};
use picture::Grid;
use refusal::Refusal;
use state::{Call, Cursor, Flags, Frame, Lengths};

// The calls that a run accepts, and the bits that they consume.
#[derive(Clone, Copy)]
pub struct Ran {
    pub accepted: usize,
    pub consumed: usize,
}

// What a record asks for.
#[derive(Clone, Copy)]
pub enum Work {
    Macroblock(Call),
    Run(Ran),
    // the refusal of the check of the transcript alone
    Replay { check: Option<Told> },
}

// What a replay answers; of a run, the replay of its transcript. No refusal of a replay has a detail.
#[derive(Clone, Copy)]
pub struct Replayed {
    pub refusal: Option<Told>,
    pub records: usize,
    pub quantiser: u32,
}

// Work, what is given for it, and what it is to come to.
#[derive(Clone, Copy)]
pub struct Film {
    pub work: Work,
    pub frame: Frame,
    pub before: Cursor,
    pub after: Cursor,
    pub refusal: Option<Told>,
    pub replayed: Replayed,
    // how much is lent of each slice
    pub lent: Lengths,
    // bytes of the list of calls, of the bits, of the transcript that is written, of its room, and of what is used of it before
    pub list: usize,
    pub bits: usize,
    pub written: usize,
    pub room: usize,
    pub used: usize,
    // macroblocks of the state at the end
    pub end: usize,
}

// By their kind. A start and its vectors and marks have a count of macroblocks.
#[derive(Clone, Copy)]
pub enum Record {
    Start(usize),
    Cells(usize),
    Film(Film),
}

impl Film {
    pub fn refuses(&self, why: Refusal) -> bool {
        self.refusal == Some(Told::from(why))
    }
}

// The bytes of a head.
#[derive(Clone, Copy)]
pub struct Head(pub [u8; 80]);

impl Head {
    // Delta is the third flag here; `desk` and `printing` are given it as a number of its own, and read the flags each by what their numbers may be.
    fn frame(&self) -> Frame {
        let flags = self.0[1];
        Frame {
            grid: Grid {
                cols: u32_at(&self.0, 4) as usize,
                rows: u32_at(&self.0, 8) as usize,
            },
            flags: Flags {
                halfpel: flags & 1 != 0,
                thirdpel: flags & 2 != 0,
                delta: flags & 4 != 0,
            },
        }
    }

    fn cursor(&self, place: usize, quantiser: usize) -> Cursor
        requires { (place ≤ 72) × (quantiser ≤ 76) }
    {
        Cursor {
            place: u64_at(&self.0, place) as usize,
            quantiser: u32_at(&self.0, quantiser),
        }
    }

    fn length(&self, at: usize) -> usize
        requires { at ≤ 78 }
    {
        usize::from(u16_at(&self.0, at))
    }

    fn lent(&self) -> Lengths {
        Lengths {
            y: self.length(64),
            cb: self.length(66),
            cr: self.length(68),
            mv: self.length(70),
            marks: self.length(72),
            ry: self.length(74),
            rcb: self.length(76),
            rcr: self.length(78),
        }
    }

    // A detail is 32 bits, less 2^32 where byte 3 says that it is negative.
    fn refusal(&self) -> Option<Told> {
        let low = i64::from(u32_at(&self.0, 48));
        let detail = if self.0[3] == 1 {
            low - 4294967296
        } else {
            low
        };
        Told::of(u32::from(self.0[2]), detail)
    }

    // A run's head has the number of the replay's refusal apart from the run's own.
    fn replayed(&self, work: Work) -> Replayed {
        let number = match work {
            Work::Run(_) => u32_at(&self.0, 20),
            _ => u32::from(self.0[2]),
        };
        Replayed {
            refusal: Told::of(number, 0),
            records: u32_at(&self.0, 12) as usize,
            quantiser: u32_at(&self.0, 28),
        }
    }

    fn film(&self, work: Work) -> Film {
        Film {
            work,
            frame: self.frame(),
            before: self.cursor(32, 24),
            after: self.cursor(40, 28),
            refusal: self.refusal(),
            replayed: self.replayed(work),
            lent: self.lent(),
            list: self.length(52),
            bits: self.length(56),
            written: self.length(58),
            room: self.length(60),
            used: self.length(62),
            end: self.length(54),
        }
    }

    // None where the kind is not known.
    pub fn record(&self) -> Option<Record> {
        let macroblocks = u32_at(&self.0, 4) as usize;
        let work = match self.0[0] {
            1 => return Some(Record::Start(macroblocks)),
            2 => return Some(Record::Cells(macroblocks)),
            3 => Work::Macroblock(Call {
                column: u32_at(&self.0, 12),
                row: u32_at(&self.0, 16),
                mode: u32_at(&self.0, 20),
            }),
            4 => Work::Run(Ran {
                accepted: u32_at(&self.0, 12) as usize,
                consumed: u32_at(&self.0, 16) as usize,
            }),
            5 => Work::Replay {
                check: Told::of(u32::from(self.0[3]), 0),
            },
            _ => return None,
        };
        Some(Record::Film(self.film(work)))
    }
}
