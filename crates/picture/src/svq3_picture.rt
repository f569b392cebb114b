// A macroblock's three blocks, copied from the reference.
ghost use Rattle.std.specs.Prelude.{◌≡◌, ◌*◌, length};
ghost use Rattle.picture.specs.Picture.{copied};
ghost use Rattle.picture.specs.InnerPicture.{Within, Sized};

use crate::rows::copy_block;
use crate::{Block, Grid, Reference};

// Grid, column and row are no struct: `vectors` asks less of the same three where it loads and marks cells, and a fact in the struct would ask it there.
pub fn copy_macroblock_from(
    y: &mut [u8],
    cb: &mut [u8],
    cr: &mut [u8],
    reference: Reference,
    grid: Grid,
    column: usize,
    row: usize,
)
    requires within { Within grid.cols grid.rows column row }
    requires sized { Sized grid.cols grid.rows (length y.old) (length cb.old) (length cr.old) }
    requires sized_2 { Sized grid.cols grid.rows (length reference.y.now) (length reference.cb.now) (length reference.cr.now) }
    ensures y_after { y.new ≡ copied y.old (16 * grid.cols) (16 * column) (16 * row) 16 16 reference.entry.y.now }
    ensures cb_after { cb.new ≡ copied cb.old (8 * grid.cols) (8 * column) (8 * row) 8 8 reference.entry.cb.now }
    ensures cr_after { cr.new ≡ copied cr.old (8 * grid.cols) (8 * column) (8 * row) 8 8 reference.entry.cr.now }
{
    let in_luma = Block {
        stride: 16 * grid.cols,
        x: 16 * column,
        y: 16 * row,
        w: 16,
        h: 16,
    };
    let in_chroma = Block {
        stride: 8 * grid.cols,
        x: 8 * column,
        y: 8 * row,
        w: 8,
        h: 8,
    };
    copy_block(y, reference.y, in_luma);
    copy_block(cb, reference.cb, in_chroma);
    copy_block(cr, reference.cr, in_chroma);
}
