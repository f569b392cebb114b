// Partitions by mode, the mode being the number of a call, and the precision selector.
ghost use Rattle.std.specs.Prelude.{◌≡◌, ◌-◌, ◌*◌, ◌/◌, ◌%◌, ◌≤◌, ◌^◌, drop};
ghost use Rattle.bits.specs.Bits.{bit_list};
ghost use Rattle.refusal.specs.Answered.{answered};
ghost use Rattle.vectors.specs.Modes.{partition_width, partition_height, num_motion_vectors, offset_x, offset_y};
ghost use Rattle.vectors.specs.Precision.{precision_number, one_flag, both_flags, precision};
ghost use Rattle.vectors.specs.InnerWindow.{Part};
ghost use Rattle.vectors.specs.InnerPrecision.{first_bit};

use bits::Bits;
use bits::bitreader::bit_at;
use refusal::Refusal;

// By mode, a byte each, mode 0's the lowest; widths and heights in 4 × 4 cells. The compiler stores an array anew wherever it is read, and
// with a match the loop over sixteen partitions took 13 % more instructions.
const WIDTHS: u64 = 0x0102_0102_0402_0404;

const HEIGHTS: u64 = 0x0101_0202_0204_0404;

const COUNTS: u64 = 0x1008_0804_0202_0100;

// A mode's byte. A mode is the number that a call has (its line is at state's Call), with the clause that it is at most 7: a type of its
// own would be made of that number at each use.
fn of_mode(table: u64, mode: u32) -> usize
    requires { mode ≤ 7 }
    ensures { result ≡ table / 2 ^ (8 * mode) % 256 }
{
    let shift = 8 * mode;
    ((table >> shift) % 256) as usize
}

// The number of partitions, each with one vector.
pub fn num_motion_vectors(mode: u32) -> usize
    requires { mode ≤ 7 }
    ensures { result ≡ num_motion_vectors mode }
{
    of_mode(COUNTS, mode)
}

// Where a partition lies in its macroblock, in 4 × 4 cells.
#[derive(Clone, Copy)]
pub struct Partition {
    pub x: usize,
    pub y: usize,
    pub wide: usize,
    pub high: usize,
    pub ghost lies: { Part x y wide high },
}

impl Partition {
    // Partition i of a mode; a skip is one.
    pub fn of_mode(mode: u32, i: usize) -> Self
        requires { (mode ≤ 7) × (i ≤ num_motion_vectors mode - 1) }
        ensures in_cells { (result.x ≡ offset_x mode i / 4) × (result.y ≡ offset_y mode i / 4) × (result.wide ≡ partition_width mode / 4) × (result.high ≡ partition_height mode / 4) }
        ensures in_samples { (4 * result.x ≡ offset_x mode i) × (4 * result.y ≡ offset_y mode i) × (4 * result.wide ≡ partition_width mode) × (4 * result.high ≡ partition_height mode) }
    {
        let wide = of_mode(WIDTHS, mode);
        let high = of_mode(HEIGHTS, mode);
        Partition {
            x: i * wide % 4,
            y: i * wide / 4 * high,
            wide,
            high,
        }
    }
}

#[derive(Clone, Copy)]
pub enum Svq3MvPrecision {
    Fullpel,
    Halfpel,
    Thirdpel,
}

// The number of a precision in a transcript, by its definition's name: `From` would not say which number.
pub fn precision_number(p: Svq3MvPrecision) -> u32
    ensures { result ≡ precision_number p }
{
    p as u32
}

// The precision selector at a place.
pub fn read_inter_mv_precision_p_frame(
    bits: Bits,
    at: usize,
    thirdpel: bool,
    halfpel: bool,
) -> Result<(Svq3MvPrecision, usize), Refusal>
    ensures { result ≡ answered at (precision halfpel thirdpel (drop at (bit_list bits.entry.bytes.now))) }
{
    match (halfpel, thirdpel) {
        (true, true) => both_flags(bits, at),
        (true, false) => one_flag(bits, at, Svq3MvPrecision::Halfpel),
        (false, true) => one_flag(bits, at, Svq3MvPrecision::Thirdpel),
        (false, false) => Ok((Svq3MvPrecision::Fullpel, at)),
    }
}

// The bit at a place.
fn read_bit(bits: Bits, at: usize) -> Result<(bool, usize), Refusal>
    ensures { result ≡ answered at (first_bit (drop at (bit_list bits.entry.bytes.now))) }
{
    if bits.bytes.len() <= at / 8 {
        return Err(Refusal::Truncated);
    }
    Ok((bit_at(bits.bytes, at), at + 1))
}

// The flag of p alone is set.
fn one_flag(bits: Bits, at: usize, p: Svq3MvPrecision) -> Result<(Svq3MvPrecision, usize), Refusal>
    ensures { result ≡ answered at (one_flag p (drop at (bit_list bits.entry.bytes.now))) }
{
    let (set, next) = read_bit(bits, at)?;
    Ok((if set { p } else { Svq3MvPrecision::Fullpel }, next))
}

// Both flags are set.
fn both_flags(bits: Bits, at: usize) -> Result<(Svq3MvPrecision, usize), Refusal>
    ensures { result ≡ answered at (both_flags (drop at (bit_list bits.entry.bytes.now))) }
{
    let (coarse, second) = read_bit(bits, at)?;
    if !coarse {
        return Ok((Svq3MvPrecision::Thirdpel, second));
    }
    let (full, next) = read_bit(bits, second)?;
    Ok((
        if full {
            Svq3MvPrecision::Fullpel
        } else {
            Svq3MvPrecision::Halfpel
        },
        next,
    ))
}
