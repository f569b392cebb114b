#![tactic(auto)]
// The planes of a picture: blocks copied by rows.
ghost use Rattle.std.specs.Prelude.{◌≡◌, ◌≤◌, ◌*◌, length};

pub mod rows;
pub mod svq3_picture;

// The w × h places from column x of row y on, in rows that are `stride` samples long.
#[derive(Clone, Copy)]
pub struct Block {
    pub stride: usize,
    pub x: usize,
    pub y: usize,
    pub w: usize,
    pub h: usize,
}

// The columns and rows of macroblocks of a picture.
#[derive(Clone, Copy)]
pub struct Grid {
    pub cols: usize,
    pub rows: usize,
}

// The columns and rows of a plane.
#[derive(Clone, Copy)]
pub struct Size {
    pub width: usize,
    pub height: usize,
}

// The three planes that a picture is predicted from, lent for reading.
#[derive(Clone, Copy)]
pub struct Reference<'a> {
    pub y: &'a [u8],
    pub cb: &'a [u8],
    pub cr: &'a [u8],
}

// A picture's three planes, its vectors and its marks, lent for writing.
// Vectors and marks are two slices, as C lends them.
#[derive(Drop)]
pub struct Picture<'a> {
    pub y: &'a mut [u8],
    pub cb: &'a mut [u8],
    pub cr: &'a mut [u8],
    pub mv: &'a mut [i32],
    pub marks: &'a mut [u8],
}

// The vectors and the marks of a picture of that grid, lent for reading.
#[derive(Clone, Copy)]
pub struct Cells<'a> {
    pub grid: Grid,
    pub mv: &'a [i32],
    pub marks: &'a [u8],
    pub ghost wide: { grid.cols ≤ 4096 },
    pub ghost paired: { length mv.now ≡ 2 * length marks.now },
}
