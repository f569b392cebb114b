// The printer's header and its list of calls, read from the input.
ghost use Rattle.std.specs.Prelude.{◌≡◌, drop};
ghost use Rattle.refusal.specs.Answered.{answered, reached};
ghost use Rattle.printing.specs.Header.{ranged, header_in, calls_from, frame_of};

use number::read_number;
use picture::Grid;
use refusal::Refusal;
use run::calls::read_call;
use state::{Flags, Frame};

#[derive(Clone, Copy)]
pub struct Header {
    pub grid: Grid,
    pub flags: u32,
    pub delta: u32,
    pub quantiser: u32,
    pub count: u32,
}

// A number from `least` to `most`.
fn read_ranged(input: &[u8], at: usize, least: u32, most: u32) -> Result<(u32, usize), Refusal>
    ensures { result ≡ answered at (ranged least most (drop at input.now)) }
{
    let (v, next) = read_number(input, at)?;
    if (least <= v) & (v <= most) {
        Ok((v, next))
    } else {
        Err(Refusal::FieldRange)
    }
}

// The header at the start of the input.
pub fn read_header(input: &[u8]) -> Result<(Header, usize), Refusal>
    ensures { result ≡ answered 0 (header_in input.now) }
{
    let (cols, p) = read_ranged(input, 0, 1, 4)?;
    let (rows, p) = read_ranged(input, p, 1, 4)?;
    let (flags, p) = read_ranged(input, p, 0, 3)?;
    let (delta, p) = read_ranged(input, p, 0, 1)?;
    let (quantiser, p) = read_ranged(input, p, 0, 31)?;
    let (count, next) = read_ranged(input, p, 0, 16)?;
    let grid = Grid {
        cols: cols as usize,
        rows: rows as usize,
    };
    let header = Header {
        grid,
        flags,
        delta,
        quantiser,
        count,
    };
    Ok((header, next))
}

// The place after `count` calls.
pub fn read_list(input: &[u8], at: usize, count: u32) -> Result<usize, Refusal>
    ensures { result ≡ reached at (calls_from count (drop at input.now)) }
{
    let mut p = at;
    for _i in 0..count {
        let (_, next) = read_call(input, p)?;
        p = next;
    }
    Ok(p)
}

// Flags are 1 half + 2 third, at most 3, and delta is 0 or 1, by the ranges that were read. `desk` has its own, where a number has no range, and `films`, where one byte holds all three.
impl From<Header> for Frame {
    ghost from_gives = { λ h frame. frame ≡ frame_of h };

    fn from(h: Header) -> Frame {
        Frame {
            grid: h.grid,
            flags: Flags {
                halfpel: h.flags % 2 == 1,
                thirdpel: h.flags / 2 == 1,
                delta: h.delta == 1,
            },
        }
    }
}
