// Four blocks at once, in a square of 8 × 8: the luma quadrant that a pattern bit codes, or a chroma plane of a macroblock.
ghost use Rattle.std.specs.Prelude.{◌≡◌, ℕ, ◌<◌, ◌≤◌, ◌*◌, pos, nat_abs, length, get_or};
ghost use Rattle.transform.specs.Residual.{residual};
ghost use Rattle.transform.specs.InnerResidual.{no_levels, luma_residual, chroma_residual};
ghost use Rattle.transform.specs.InnerFour.{SquareIn, added_four, four_added};
ghost use Rattle.transform.specs.InnerPasses.{Exact};

use crate::svq3_dequant::{chroma_coeff, dequant_coeff};
use crate::svq3_pred::reconstruct_4x4;
use crate::svq3_recon::{add_block, add_chroma_dc_block};
use crate::{Quantiser, Scale, Square, exact};

// Each function goes over the four blocks itself: a loop is two lines, and one function that takes a closure for them is no shorter.

// `SquareIn` ties a square to the plane that is written, here and for a block: a struct of both would be taken apart for each of the four blocks.

// Four blocks whose levels and DC are small.
fn add_exact(plane: &mut [u8], s: Square, levels: &[i32], scale: Scale, dc: &[i32; 4])
    requires inside { SquareIn s 8 (length plane.old) }
    requires exact { Exact scale.by levels.now × ((b : ℕ) → b < 4 → nat_abs (get_or dc.now b (pos 0)) ≤ 800000) }
    ensures { plane.new ≡ four_added plane.old s levels.now scale.by dc.now }
{
    let rows = exact::rows(levels, scale);
    for (b, dc) in dc.iter().enumerate() {
        let r = exact::columns(&rows[4 * b..], *dc);
        reconstruct_4x4(plane, s.block(b), r);
    }
}

// Four blocks of any levels.
fn add_each(plane: &mut [u8], s: Square, levels: &[i32], scale: Scale, dc: &[i32; 4])
    requires inside { SquareIn s 8 (length plane.old) }
    requires levels { 64 ≤ length levels.now }
    ensures { plane.new ≡ four_added plane.old s levels.now scale.by dc.now }
{
    for (b, dc) in dc.iter().enumerate() {
        add_block(plane, s.block(b), &levels[16 * b..], scale, *dc);
    }
}

// Four blocks of sixteen levels each.
fn add_four(plane: &mut [u8], s: Square, levels: &[i32], scale: Scale, dc: &[i32; 4])
    requires inside { SquareIn s 8 (length plane.old) }
    requires levels { (64 ≤ length levels.now) × (0 < scale.by) }
    ensures { plane.new ≡ four_added plane.old s levels.now scale.by dc.now }
{
    if exact::all_small(levels, scale.by, dc) {
        add_exact(plane, s, levels, scale, dc);
    } else {
        add_each(plane, s, levels, scale, dc);
    }
}

// The four blocks of a luma quadrant.
pub fn add_luma_quadrant(plane: &mut [u8], s: Square, levels: &[i32], q: Quantiser)
    requires inside { SquareIn s 8 (length plane.old) }
    requires levels { 64 ≤ length levels.now }
    ensures { plane.new ≡ added_four plane.old s.stride s.x s.y (λ b. luma_residual q.number levels.now (16 * b)) }
{
    add_four(plane, s, levels, dequant_coeff(q), &[0; 4]);
}

// The four blocks of a chroma plane, each with its DC.
pub fn add_chroma_blocks(plane: &mut [u8], s: Square, levels: &[i32], q: Quantiser, dc: &[i32; 4])
    requires inside { SquareIn s 8 (length plane.old) }
    requires levels { 64 ≤ length levels.now }
    ensures { plane.new ≡ added_four plane.old s.stride s.x s.y (λ b. chroma_residual q.number (get_or dc.now b (pos 0)) levels.now (16 * b)) }
{
    add_four(plane, s, levels, chroma_coeff(q), dc);
}

// The four blocks of a chroma plane with no levels but their DC.
pub fn add_chroma_dc_blocks(plane: &mut [u8], s: Square, dc: &[i32; 4])
    requires { SquareIn s 8 (length plane.old) }
    ensures { (scale : ℕ) → plane.new ≡ added_four plane.old s.stride s.x s.y (λ b. residual scale (get_or dc.now b (pos 0)) no_levels) }
{
    for (b, dc) in dc.iter().enumerate() {
        add_chroma_dc_block(plane, s.block(b), *dc);
    }
}
