// The residuals added to samples.
ghost use Rattle.std.specs.Prelude.{◌≤◌, length};

use lists::{bytes_at, take_numbers};
use picture::rows::store_row;
use transform::four::{add_chroma_blocks, add_chroma_dc_blocks, add_luma_quadrant};
use transform::svq3_dequant::dequantize_chroma_dc_levels;
use transform::{Quantiser, Square};

// A plane of 8 × 8 samples, all of it.
const SQUARE: Square = Square {
    stride: 8,
    x: 0,
    y: 0,
};

// A block of 4 × 4 samples, into a quadrant of 8 × 8 from `at` on.
// By r and not by the block's chunks: tried, and the proof did not close, since nothing bounds a chunk's number there and `at + 8 * r` must fit.
fn put_block(quadrant: &mut [u8; 64], at: usize, block: &[u8])
    requires { (at ≤ 36) × (16 ≤ length block.now) }
{
    for r in 0..4 {
        store_row(quadrant, at + 8 * r, block, 4 * r, 4);
    }
}

// Whether the block that starts at `at` is the one answered, and the other three, which have no levels, stay as they were.
fn luma_at(given: &[u8], answered: &[u8], q: Quantiser, at: usize, first: usize) -> bool
    requires { (80 ≤ length given.now) × (16 ≤ length answered.now) × (at ≤ 36) × (first ≤ 48) }
{
    let mut samples = [100u8; 64];
    let mut wanted = [100u8; 64];
    let mut levels = [0i32; 64];
    put_block(&mut samples, at, given);
    put_block(&mut wanted, at, answered);
    take_numbers(&mut levels[first..first + 16], &given[16..80]);
    add_luma_quadrant(&mut samples, SQUARE, &levels, q);
    samples == wanted
}

// 16 samples and 16 levels, as each of the four blocks of a quadrant.
pub fn luma_agrees(quantiser: u32, given: &[u8], answered: &[u8]) -> bool {
    if (given.len() < 80) | (answered.len() != 16) | (quantiser > 31) {
        return false;
    }
    let q = Quantiser { number: quantiser };
    luma_at(given, answered, q, 0, 0)
        & luma_at(given, answered, q, 4, 16)
        & luma_at(given, answered, q, 32, 32)
        & luma_at(given, answered, q, 36, 48)
}

// The samples with the four DC alone, where all other levels are 0.
fn dc_agrees(given: &[u8], answered: &[u8], dc: [i32; 4]) -> bool
    requires { 336 ≤ length given.now }
{
    let mut samples: [u8; 64] = bytes_at(given, 0);
    if given[80..336] != [0u8; 256] {
        return true;
    }
    add_chroma_dc_blocks(&mut samples, SQUARE, &dc);
    samples.as_slice() == answered
}

// 64 samples, 4 DC levels, 4 blocks of 16 levels.
pub fn chroma_agrees(quantiser: u32, given: &[u8], answered: &[u8]) -> bool {
    if (given.len() < 336) | (quantiser > 31) {
        return false;
    }
    let mut samples: [u8; 64] = bytes_at(given, 0);
    let mut direct = [0i32; 4];
    let mut levels = [0i32; 64];
    take_numbers(&mut direct, &given[64..80]);
    take_numbers(&mut levels, &given[80..336]);
    let q = Quantiser { number: quantiser };
    let dc = dequantize_chroma_dc_levels(&direct, q);
    add_chroma_blocks(&mut samples, SQUARE, &levels, q, &dc);
    (samples.as_slice() == answered) & dc_agrees(given, answered, dc)
}
