// The cells that the partitions of a macroblock see, copied: so reading a macroblock changes no lent vector or mark.
ghost use Rattle.std.specs.Prelude.{◌≡◌, true, ℕ, ◌+◌, ◌-◌, ◌*◌, ◌≤◌, ◌<◌, eqb, length, get_or, set, replicate};
ghost use Rattle.ints.specs.Z.{when◌then◌else◌};
ghost use Rattle.picture.specs.Painted.{Inside};
ghost use Rattle.picture.specs.InnerPicture.{Within};
ghost use Rattle.picture.specs.Field.{Field};
ghost use Rattle.picture.specs.InnerField.{lent_field};
ghost use Rattle.vectors.specs.Predict.{above_left_of, combined, predictor};

use crate::svq3_frame::{Vector, combined, held_in, median_of};
use crate::svq3_mb::Partition;
use picture::{Cells, Grid};

// 6 × 5 cells by rows: the macroblock's 4 × 4, a column on either side and a row above.
// Two arrays: as one of Option<Vector>, loading, prediction and storing took a quarter more instructions.
// Open, so that a caller may lend a window of its own.
#[derive(Clone, Copy)]
pub struct Neighbours {
    pub vectors: [Vector; 30],
    pub marks: [u8; 30],
    pub ghost vectors_len: { length vectors ≡ 30 },
    pub ghost marks_len: { length marks ≡ 30 },
}

impl Neighbours {
    ghost use Rattle.vectors.specs.InnerWindow.{Seen, shown_at, corners};

    // All marked 0.
    pub fn new() -> Self
        ensures { result.marks ≡ replicate 30 0 }
    {
        Neighbours {
            vectors: [Vector::default(); 30],
            marks: [0; 30],
        }
    }

    fn set_cell(&mut self, k: usize, mark: u8, v: Vector)
        requires { k < 30 }
        ensures vectors_after { self.new.vectors ≡ set self.old.vectors k v }
        ensures marks_after { self.new.marks ≡ set self.old.marks k mark }
    {
        self.marks[k] = mark;
        self.vectors[k] = v;
    }

    // The cell above and to the left of (x, y), as cell k; marked 0 off the picture. That the rows above y lie in the marks is a clause
    // here, in load_row and in copy_row: it ties a number to what is lent, and a struct of both would be taken apart in each.
    fn load_cell(&mut self, cells: Cells, x: usize, y: usize, k: usize)
        requires { (k < 30) × (y * (4 * cells.grid.cols) ≤ length cells.marks.now) }
        ensures loaded { (rows : ℕ) → y ≤ 4 * rows → shown_at self.new k ≡ above_left_of (lent_field cells.entry.grid.cols rows cells.entry.mv.now cells.entry.marks.now) x y }
        ensures others { (j : ℕ) → (j ≡ k → ⊥) → shown_at self.new j ≡ shown_at self.old j }
    {
        let stride = 4 * cells.grid.cols;
        if (x == 0) | (y == 0) | (stride < x) {
            self.marks[k] = 0;
        } else {
            let i = (y - 1) * stride + (x - 1);
            self.set_cell(k, cells.marks[i], Vector::at(cells.mv, i));
        }
    }

    // The row above y, from the column left of the macroblock on, as the six cells from `at` on.
    fn load_row(&mut self, cells: Cells, column: usize, y: usize, at: usize)
        requires { (at + 6 ≤ 30) × (column < cells.grid.cols) × (y * (4 * cells.grid.cols) ≤ length cells.marks.now) }
        ensures loaded { (rows : ℕ) → y ≤ 4 * rows → (c : ℕ) → c < 6 → shown_at self.new (at + c) ≡ above_left_of (lent_field cells.entry.grid.cols rows cells.entry.mv.now cells.entry.marks.now) (4 * column + c) y }
        ensures others { (j : ℕ) → j < at → shown_at self.new j ≡ shown_at self.old j }
    {
        for c in 0..6 {
            self.load_cell(cells, 4 * column + c, y, at + c);
        }
    }

    // The same of a row whose six cells all lie on the picture. By the number: a cell takes a mark and the two
    // numbers of its vector, which lie in two slices; zipped, and with the cells counted, the loop is longer.
    fn copy_row(&mut self, cells: Cells, column: usize, y: usize, at: usize)
        requires lent { (at + 6 ≤ 30) × (y * (4 * cells.grid.cols) ≤ length cells.marks.now) }
        requires whole { (0 < column) × (0 < y) × (column + 1 < cells.grid.cols) }
        ensures loaded { (rows : ℕ) → y ≤ 4 * rows → (c : ℕ) → c < 6 → shown_at self.new (at + c) ≡ above_left_of (lent_field cells.entry.grid.cols rows cells.entry.mv.now cells.entry.marks.now) (4 * column + c) y }
        ensures others { (j : ℕ) → j < at → shown_at self.new j ≡ shown_at self.old j }
    {
        let from = (y - 1) * (4 * cells.grid.cols) + (4 * column - 1);
        for c in 0..6 {
            let i = from + c;
            self.set_cell(at + c, cells.marks[i], Vector::at(cells.mv, i));
        }
    }

    // The window of a macroblock. As a result it would be copied: 10 % more instructions with prediction and storing.
    pub fn load(&mut self, cells: Cells, column: usize, row: usize)
        requires { (row < cells.grid.rows) × Inside (4 * cells.grid.cols) (4 * column) (4 * row) 4 4 (length cells.marks.now) }
        ensures { (wide high : ℕ) → Seen wide high (lent_field cells.entry.grid.cols cells.entry.grid.rows cells.entry.mv.now cells.entry.marks.now) column row self.new }
    {
        // Where all cells lie on the picture they are copied untested: with the tests it took 6 % more instructions.
        let whole = (0 < column) & (0 < row) & (column + 1 < cells.grid.cols);
        for r in 0..5 {
            if whole {
                self.copy_row(cells, column, 4 * row + r, r * 6);
            } else {
                self.load_row(cells, column, 4 * row + r, r * 6);
            }
        }
    }

    // The vector of cell i.
    fn mv_block(&self, i: usize) -> Option<Vector>
        requires { i < 30 }
        ensures { result ≡ shown_at self.now i }
    {
        if self.marks[i] == 0 {
            None
        } else {
            Some(self.vectors[i])
        }
    }

    // Cell c, or d where c is marked 0.
    fn marked_or(&self, c: usize, d: usize) -> usize
        requires { (c < 30) × (d < 30) }
        ensures { (result < 30) × (result ≡ (when eqb (get_or self.now.marks c 0) 0 then d else c)) }
    {
        if self.marks[c] == 0 { d } else { c }
    }

    // The prediction from the cells a, b and c. Most often none is missing: through `combined` alone it took 18 % more instructions.
    fn predicted(&self, a: usize, b: usize, c: usize) -> Vector
        requires { (a < 30) × (b < 30) × (c < 30) }
        ensures { result ≡ combined (shown_at self.now a) (shown_at self.now b) (shown_at self.now c) }
    {
        if (self.marks[a] == 0) | (self.marks[b] == 0) | (self.marks[c] == 0) {
            return combined(self.mv_block(a), self.mv_block(b), self.mv_block(c));
        }
        median_of(self.vectors[a], self.vectors[b], self.vectors[c])
    }

    // The predictor of a partition, in any field that the window shows.
    pub fn predict_mv(&self, grid: Grid, column: usize, row: usize, part: Partition) -> Vector
        requires { Within grid.cols grid.rows column row }
        ensures { (f : Field) → f.cols ≡ grid.cols → f.rows ≡ grid.rows → Seen part.wide part.high f column row self.now → result ≡ predictor f (4 * column + part.x) (4 * row + part.y) part.wide part.high }
    {
        let d = part.y * 6 + part.x;
        let c = self.marked_or(d + 1 + part.wide, d);
        let p = self.predicted(d + 6, d + 1, c);
        let x = 4 * (4 * column + part.x);
        let y = 4 * (4 * row + part.y);
        Vector {
            x: held_in(16 * grid.cols, x, 4 * part.wide, p.x),
            y: held_in(16 * grid.rows, y, 4 * part.high, p.y),
        }
    }

    // The vector, marked 1, to the corners of a partition: no other cell of it is looked at.
    pub fn store_partition(&mut self, part: Partition, v: Vector)
        ensures vectors_after { self.new.vectors ≡ corners self.old.vectors ((part.y + 1) * 6 + (part.x + 1)) (part.wide - 1) (6 * (part.high - 1)) v }
        ensures marks_after { self.new.marks ≡ corners self.old.marks ((part.y + 1) * 6 + (part.x + 1)) (part.wide - 1) (6 * (part.high - 1)) 1 }
    {
        let k = (part.y + 1) * 6 + (part.x + 1);
        let across = part.wide - 1;
        let down = 6 * (part.high - 1);
        self.set_cell(k, 1, v);
        self.set_cell(k + across, 1, v);
        self.set_cell(k + down, 1, v);
        self.set_cell(k + across + down, 1, v);
    }
}
