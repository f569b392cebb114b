// The head of a question, read once (tools/reference/README.md has its form).
use levels::svq3_coeff::ResidualBook;
use lists::{Told, i32_at, u32_at, u64_at};
use refusal::Refusal;

// Of the bits given.
#[derive(Clone, Copy)]
pub enum Reader {
    UniversalCode,
    SignedCode,
    Precision { halfpel: bool, thirdpel: bool },
    Pattern,
    // the place is the code
    LevelRun(ResidualBook),
    // from position 0 or 1 on
    ResidualList(u32),
    ChromaDc,
    // of a mode, at most 7
    Partitions(u32),
}

// How a reader answers: a refusal, or the place afterwards, and values.
#[derive(Clone, Copy)]
pub struct Expected {
    refusal: Option<Told>,
    next: usize,
}

impl Expected {
    pub fn accepts(&self, next: usize) -> bool {
        self.refusal.is_none() & (self.next == next)
    }

    pub fn refuses(&self, why: Refusal) -> bool {
        self.refusal == Some(Told::from(why))
    }
}

// A block to be compensated: a chroma block's place, size and vector are luma's.
#[derive(Clone, Copy)]
pub struct Compensated {
    pub x: i32,
    pub y: i32,
    pub w: usize,
    pub h: usize,
    pub vx: i32,
    pub vy: i32,
}

#[derive(Clone, Copy)]
pub enum Question {
    // the plane of the blocks that follow
    Plane {
        width: usize,
        height: usize,
    },
    Bits {
        reader: Reader,
        at: usize,
        expected: Expected,
    },
    LumaBlock(Compensated),
    ChromaBlock(Compensated),
    LumaResidual {
        quantiser: u32,
    },
    ChromaResidual {
        quantiser: u32,
    },
}

impl Reader {
    // None where the kind is not known.
    fn of(kind: u8, option: u8) -> Option<Reader> {
        let option = u32::from(option);
        match kind {
            1 => Some(Reader::UniversalCode),
            2 => Some(Reader::SignedCode),
            3 => Some(Reader::Precision {
                halfpel: option % 2 == 1,
                thirdpel: 2 <= option,
            }),
            4 => Some(Reader::Pattern),
            5 if option == 0 => Some(Reader::LevelRun(ResidualBook::NormalScan)),
            5 => Some(Reader::LevelRun(ResidualBook::ChromaDc)),
            6 => Some(Reader::ResidualList(option % 2)),
            7 => Some(Reader::ChromaDc),
            8 => Some(Reader::Partitions(option % 8)),
            _ => None,
        }
    }
}

// The bytes of a head.
#[derive(Clone, Copy)]
pub struct Head(pub [u8; 32]);

impl Head {
    // No detail of a reader is negative, or wider than 32 bits.
    fn expected(&self) -> Expected {
        let detail = i64::from(u32_at(&self.0, 16));
        Expected {
            refusal: Told::of(u32::from(self.0[2]), detail),
            next: u64_at(&self.0, 24) as usize,
        }
    }

    fn compensated(&self) -> Compensated {
        Compensated {
            x: i32_at(&self.0, 8),
            y: i32_at(&self.0, 12),
            w: usize::from(self.0[2]),
            h: usize::from(self.0[3]),
            vx: i32_at(&self.0, 16),
            vy: i32_at(&self.0, 20),
        }
    }

    // None where the kind is not known.
    pub fn question(&self) -> Option<Question> {
        let quantiser = u32::from(self.0[1]);
        match self.0[0] {
            16 => Some(Question::Plane {
                width: u32_at(&self.0, 8) as usize,
                height: u32_at(&self.0, 12) as usize,
            }),
            17 => Some(Question::LumaBlock(self.compensated())),
            18 => Some(Question::ChromaBlock(self.compensated())),
            19 => Some(Question::LumaResidual { quantiser }),
            20 => Some(Question::ChromaResidual { quantiser }),
            kind => Some(Question::Bits {
                reader: Reader::of(kind, self.0[1])?,
                at: u64_at(&self.0, 8) as usize,
                expected: self.expected(),
            }),
        }
    }

    // How many bytes are given.
    pub fn given(&self) -> usize {
        u32_at(&self.0, 4) as usize
    }

    // How many are answered. A reader's head counts its values, of four bytes each.
    pub fn answered(&self) -> usize {
        if self.0[0] < 16 {
            4 * usize::from(self.0[3])
        } else {
            u32_at(&self.0, 24) as usize
        }
    }
}
