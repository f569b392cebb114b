// A record applied to the planes, the vectors and the marks.
ghost use Rattle.std.specs.Prelude.{◌≡◌, true, false};
ghost use Rattle.picture.specs.InnerPicture.{Within};
ghost use Rattle.picture.specs.InnerLent.{contents, with_contents};
ghost use Rattle.state.specs.InnerSizes.{AllSized, lent_lengths};
ghost use Rattle.record.specs.Record.{skip_record};
ghost use Rattle.apply.specs.InnerMoved.{PlanesSized};
ghost use Rattle.apply.specs.InnerApplied.{applied_slices};
ghost use Rattle.apply.specs.InnerCoded.{record_given};
ghost use Rattle.apply.specs.Apply.{applied_luma, applied_chroma};

use crate::svq3_frame::{compensate_chroma, compensate_luma};
use crate::svq3_picture::store_partitions;
use crate::svq3_recon::{add_chroma, add_luma};
use crate::{Coded, Residual};
use picture::svq3_picture::copy_macroblock_from;
use picture::{Grid, Picture, Reference};
use state::{Call, Macroblock};
use vectors::svq3_frame::mark_macroblock;

// Compensation, then the residual.
pub fn apply_luma(pic: &mut [u8], reference: &[u8], coded: Coded)
    requires { PlanesSized false coded.grid.cols coded.grid.rows pic reference }
    ensures { pic.new ≡ applied_luma coded.entry.grid.cols coded.entry.grid.rows reference.now (record_given coded.entry) pic.old }
{
    let head = coded.head;
    let call = Call {
        column: head.column,
        row: head.row,
        mode: head.mode,
    };
    let mb = Macroblock {
        grid: coded.grid,
        call,
    };
    let residual = Residual {
        grid: coded.grid,
        head,
        levels: coded.levels,
    };
    compensate_luma(pic, reference, coded.vectors, mb);
    add_luma(pic, residual);
}

// The same of both chroma planes.
pub fn apply_chroma(cb: &mut [u8], cr: &mut [u8], reference: Reference, coded: Coded)
    requires { PlanesSized true coded.grid.cols coded.grid.rows cb reference.cb × PlanesSized true coded.grid.cols coded.grid.rows cr reference.cr }
    ensures cb_after { cb.new ≡ applied_chroma 0 coded.entry.grid.cols coded.entry.grid.rows reference.entry.cb.now (record_given coded.entry) cb.old }
    ensures cr_after { cr.new ≡ applied_chroma 1 coded.entry.grid.cols coded.entry.grid.rows reference.entry.cr.now (record_given coded.entry) cr.old }
{
    let head = coded.head;
    let call = Call {
        column: head.column,
        row: head.row,
        mode: head.mode,
    };
    let mb = Macroblock {
        grid: coded.grid,
        call,
    };
    let residual = Residual {
        grid: coded.grid,
        head,
        levels: coded.levels,
    };
    compensate_chroma(cb, cr, reference, coded.vectors, mb);
    add_chroma(cb, residual, 0);
    add_chroma(cr, residual, 1);
}

// A record that is no skip: the three planes, the vectors and the marks.
pub fn apply_coded(pic: &mut Picture, reference: Reference, coded: Coded)
    requires { AllSized coded.grid.cols coded.grid.rows (lent_lengths (contents pic.old) reference) }
    ensures applied { pic.new ≡ with_contents pic.old (applied_slices coded.entry.grid.cols coded.entry.grid.rows reference.entry (record_given coded.entry) (contents pic.old)) }
    ensures sized { AllSized coded.entry.grid.cols coded.entry.grid.rows (lent_lengths (contents pic.new) reference.entry) }
{
    apply_luma(pic.y, reference.y, coded);
    apply_chroma(pic.cb, pic.cr, reference, coded);
    let head = coded.head;
    let call = Call {
        column: head.column,
        row: head.row,
        mode: head.mode,
    };
    let mb = Macroblock {
        grid: coded.grid,
        call,
    };
    store_partitions(pic.mv, pic.marks, coded.vectors, mb);
}

// A skip: its three blocks are copied.
pub fn apply_skip(pic: &mut Picture, reference: Reference, grid: Grid, column: usize, row: usize)
    requires within { Within grid.cols grid.rows column row }
    requires all_sized { AllSized grid.cols grid.rows (lent_lengths (contents pic.old) reference) }
    ensures applied { pic.new ≡ with_contents pic.old (applied_slices grid.cols grid.rows reference.entry (skip_record column row) (contents pic.old)) }
    ensures sized { AllSized grid.cols grid.rows (lent_lengths (contents pic.new) reference.entry) }
{
    copy_macroblock_from(pic.y, pic.cb, pic.cr, reference, grid, column, row);
    mark_macroblock(pic.mv, pic.marks, grid, column, row);
}
