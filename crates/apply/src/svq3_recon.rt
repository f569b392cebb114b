// The residual of a macroblock's coded blocks, added to the planes.
ghost use Rattle.std.specs.Prelude.{◌≡◌, false, ℕ, ◌+◌, ◌*◌, ◌<◌, ◌≤◌, pos, length, get_or};
ghost use Rattle.transform.specs.InnerFour.{SquareIn};
ghost use Rattle.picture.specs.Picture.{luma_length, chroma_length};
ghost use Rattle.levels.specs.Items.{ListsRange};
ghost use Rattle.record.specs.Range.{ItemRange};
ghost use Rattle.apply.specs.Blocks.{luma_up_to, chroma_added};
ghost use Rattle.apply.specs.InnerSquares.{quadrant_added, square_added};

use crate::Residual;
use levels::svq3_cbp::{chroma_class, luma_quadrant_coded};
use transform::four::{add_chroma_blocks, add_chroma_dc_blocks, add_luma_quadrant};
use transform::svq3_dequant::dequantize_chroma_dc_levels;
use transform::{Quantiser, Square};

// Luma quadrant q, where it is coded.
fn add_quadrant(pic: &mut [u8], residual: Residual, q: usize)
    requires quadrant { q < 4 }
    requires pic_len { length pic.old ≡ luma_length residual.grid.cols residual.grid.rows }
    ensures { pic.new ≡ quadrant_added q residual.entry.grid.cols residual.entry.head residual.entry.levels.now pic.old }
{
    let head = residual.head;
    if luma_quadrant_coded(head.pattern as u8, q as u32) {
        let s = Square {
            stride: 16 * residual.grid.cols,
            x: 16 * (head.column as usize) + 8 * (q % 2),
            y: 16 * (head.row as usize) + 8 * (q / 2),
        };
        let levels = residual.levels;
        let number = head.quantiser;
        add_luma_quadrant(pic, s, &levels[64 * q..], Quantiser { number });
    }
}

pub fn add_luma(pic: &mut [u8], residual: Residual)
    requires { length pic.old ≡ luma_length residual.grid.cols residual.grid.rows }
    ensures { pic.new ≡ luma_up_to 16 residual.entry.grid.cols residual.entry.head residual.entry.levels.now pic.old }
{
    for q in 0..4 {
        add_quadrant(pic, residual, q);
    }
}

// The four blocks of a chroma plane, Cb 0 or Cr 1 (a number: places of levels are reckoned with it), in a square. Without AC levels, where `ac` is false, each has its DC alone: two calls, of which a caller knows one by the class, and what stands before them is the same.
fn add_square(pic: &mut [u8], s: Square, levels: &[i32; 392], plane: usize, q: Quantiser, ac: bool)
    requires inside { SquareIn s 8 (length pic.old) × (plane < 2) }
    requires pos_value { ac ≡ false → (n : ℕ) → n < 64 → get_or levels.now (264 + 64 * plane + n) (pos 0) ≡ pos 0 }
    ensures { pic.new ≡ square_added plane s.stride s.x s.y q.number levels.now pic.old }
{
    let dc = dequantize_chroma_dc_levels(&levels[256 + 4 * plane..], q);
    if ac {
        add_chroma_blocks(pic, s, &levels[264 + 64 * plane..], q, &dc);
    } else {
        add_chroma_dc_blocks(pic, s, &dc);
    }
}

pub fn add_chroma(pic: &mut [u8], residual: Residual, plane: usize)
    requires pic_len { (length pic.old ≡ chroma_length residual.grid.cols residual.grid.rows) × (plane < 2) }
    requires lists { ListsRange ItemRange residual.head.pattern residual.levels.now }
    ensures { pic.new ≡ chroma_added plane residual.entry.grid.cols residual.entry.head residual.entry.levels.now pic.old }
{
    let head = residual.head;
    let class = chroma_class(head.pattern as u8);
    if 0 < class {
        let s = Square {
            stride: 8 * residual.grid.cols,
            x: 8 * (head.column as usize),
            y: 8 * (head.row as usize),
        };
        let number = head.quantiser;
        add_square(
            pic,
            s,
            residual.levels,
            plane,
            Quantiser { number },
            class == 2,
        );
    }
}
