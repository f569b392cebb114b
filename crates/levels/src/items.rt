// The 26 lists of levels: which are coded, where each stands among the 392 levels, and reading them from the bits.
ghost use Rattle.std.specs.Prelude.{◌≡◌, ◌+◌, ◌*◌, ◌≤◌, ◌<◌, ◌^◌, length};
ghost use Rattle.bits.specs.Bits.{bit_list};
ghost use Rattle.levels.specs.Items.{item_coded, item_place, read_items};
ghost use Rattle.levels.specs.InnerItems.{Group};
ghost use Rattle.levels.specs.InnerSides.{read_side};
ghost use Rattle.levels.specs.InnerLeft.{left_side, left_items, Leaves};

use crate::svq3_cbp::{chroma_class, luma_quadrant_coded};
use crate::svq3_coeff::{ResidualBook, decode_chroma_dc_2x2, decode_residual_4x4_normal};
use bits::Bits;
use refusal::Refusal;

// Lists 0 to 15 are luma blocks, 16 and 17 chroma DC, 18 to 25 chroma AC.
pub fn item_coded(pattern: u8, i: usize) -> bool
    ensures { result ≡ item_coded pattern i }
{
    if i < 16 {
        return luma_quadrant_coded(pattern, (i / 4) as u32);
    }
    if i < 18 {
        return 0 < chroma_class(pattern);
    }
    chroma_class(pattern) == 2
}

// The list behind the group of list i, which is a luma quadrant, chroma DC or chroma AC: where list i is not coded, nothing before that one is.
// A list is a number with the clause that it is below 26, here and where one is parsed: it is counted on by 1, or to the end of its group, which
// is 26 behind the last; a type would be opened and made anew in each turn.
pub fn group_end(i: usize) -> usize
    requires { i < 26 }
    ensures { Group i result }
{
    if i < 16 {
        return (i / 4 + 1) * 4;
    }
    if i < 18 { 18 } else { 26 }
}

// Its first place among the 392.
pub fn item_place(i: usize) -> usize
    requires { i < 26 }
    ensures { result ≡ item_place i }
{
    if i < 16 {
        return 16 * i;
    }
    if i < 18 {
        256 + 4 * (i - 16)
    } else {
        264 + 16 * (i - 18)
    }
}

// `count` lists of 4×4 blocks, which are stored side by side from `place` on. After a refusal the lists before the refused one are stored and its own room is 0, here and below.
fn read_blocks(
    levels: &mut [i32],
    bits: Bits,
    at: usize,
    place: usize,
    count: usize,
    start: u32,
) -> Result<usize, Refusal>
    requires { (place + 16 * count ≤ length levels.old) × (start ≤ 1) }
    ensures { Leaves (read_side ResidualBook.NormalScan start count place) (left_side ResidualBook.NormalScan start count place) levels.old (bit_list bits.entry.bytes.now) at result levels.new }
{
    let mut p = at;
    for i in 0..count {
        p = decode_residual_4x4_normal(levels, place + 16 * i, bits, p, start)?;
    }
    Ok(p)
}

// Cb DC and Cr DC.
fn read_dc(levels: &mut [i32; 392], bits: Bits, at: usize) -> Result<usize, Refusal>
    ensures { Leaves (read_side ResidualBook.ChromaDc 0 2 256) (left_side ResidualBook.ChromaDc 0 2 256) levels.old (bit_list bits.entry.bytes.now) at result levels.new }
{
    let next = decode_chroma_dc_2x2(levels, 256, bits, at)?;
    decode_chroma_dc_2x2(levels, 260, bits, next)
}

// The four lists of luma quadrant q, where they are coded.
fn read_quadrant(
    levels: &mut [i32; 392],
    bits: Bits,
    at: usize,
    pattern: u8,
    q: usize,
) -> Result<usize, Refusal>
    requires { q < 4 }
    ensures { Leaves (read_items 4 (4 * q) pattern) (left_items 4 (4 * q) pattern) levels.old (bit_list bits.entry.bytes.now) at result levels.new }
{
    if luma_quadrant_coded(pattern, q as u32) {
        return read_blocks(levels, bits, at, 64 * q, 4, 0);
    }
    Ok(at)
}

// The eight chroma AC lists, where they are coded.
fn read_ac(levels: &mut [i32; 392], bits: Bits, at: usize, pattern: u8) -> Result<usize, Refusal>
    ensures { Leaves (read_items 8 18 pattern) (left_items 8 18 pattern) levels.old (bit_list bits.entry.bytes.now) at result levels.new }
{
    if chroma_class(pattern) == 2 {
        return read_blocks(levels, bits, at, 264, 8, 1);
    }
    Ok(at)
}

// All chroma lists that are coded.
fn read_chroma(
    levels: &mut [i32; 392],
    bits: Bits,
    at: usize,
    pattern: u8,
) -> Result<usize, Refusal>
    ensures { Leaves (read_items 10 16 pattern) (left_items 10 16 pattern) levels.old (bit_list bits.entry.bytes.now) at result levels.new }
{
    if chroma_class(pattern) == 0 {
        return Ok(at);
    }
    let next = read_dc(levels, bits, at)?;
    read_ac(levels, bits, next, pattern)
}

// All coded lists, each stored at its place.
pub fn read_items(
    levels: &mut [i32; 392],
    bits: Bits,
    at: usize,
    pattern: u8,
) -> Result<usize, Refusal>
    ensures { Leaves (read_items 26 0 pattern) (left_items 26 0 pattern) levels.old (bit_list bits.entry.bytes.now) at result levels.new }
{
    let mut p = at;
    for q in 0..4 {
        p = read_quadrant(levels, bits, p, pattern, q)?;
    }
    read_chroma(levels, bits, p, pattern)
}
