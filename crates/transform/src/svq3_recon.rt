// The residuals of levels, added to a plane.
ghost use Rattle.std.specs.Prelude.{◌≡◌, ℕ, ◌≤◌, length};
ghost use Rattle.transform.specs.Residual.{placed, residual};
ghost use Rattle.transform.specs.InnerResidual.{no_levels};
ghost use Rattle.transform.specs.Added.{added};
ghost use Rattle.transform.specs.InnerFour.{SquareIn};

use crate::svq3_dequant::{dequantize_transform_luma_block_with_dc, finish};
use crate::svq3_pred::reconstruct_4x4;
use crate::{Scale, Square};

// The first sixteen levels, at an entry of the table and with a DC.
pub fn add_block(plane: &mut [u8], s: Square, levels: &[i32], scale: Scale, dc: i32)
    requires inside { SquareIn s 4 (length plane.old) }
    requires levels { 16 ≤ length levels.now }
    ensures { plane.new ≡ added plane.old s.stride s.x s.y (residual scale.by dc (placed levels.now 0)) }
{
    let r = dequantize_transform_luma_block_with_dc(levels, scale, dc);
    reconstruct_4x4(plane, s, r);
}

// A chroma block with no levels but its DC: each residual is the same.
pub fn add_chroma_dc_block(plane: &mut [u8], s: Square, dc: i32)
    requires { SquareIn s 4 (length plane.old) }
    ensures { (scale : ℕ) → plane.new ≡ added plane.old s.stride s.x s.y (residual scale dc no_levels) }
{
    let v = finish(0, dc);
    reconstruct_4x4(plane, s, [v; 16]);
}
