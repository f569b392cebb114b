// The state of a grid of at most six macroblocks, and its reference, as a list gives them.
// A list has a state's bytes in one row: luma, Cb from 1,600 on, Cr from 2,000, the marks from 2,400, and from 2,500 the vectors, four bytes a component.
ghost use Rattle.std.specs.Prelude.{◌<◌, ◌≤◌};

use lists::{read, take_numbers};
use picture::{Grid, Reference};
use state::{Call, Lengths};

#[derive(Clone, Copy, PartialEq)]
pub struct Planes {
    pub y: [u8; 1600],
    pub cb: [u8; 400],
    pub cr: [u8; 400],
}

#[derive(Clone, Copy, PartialEq)]
pub struct State {
    pub planes: Planes,
    pub mv: [i32; 200],
    pub marks: [u8; 100],
}

impl Planes {
    pub fn new() -> Planes {
        Planes {
            y: [0; 1600],
            cb: [0; 400],
            cr: [0; 400],
        }
    }

    // As a reference: the start of each plane, as long as the head says, where the plane has as much.
    pub fn lent(&self, lengths: Lengths) -> Reference<'_> {
        Reference {
            y: &self.y[..lengths.ry.min(1600)],
            cb: &self.cb[..lengths.rcb.min(400)],
            cr: &self.cr[..lengths.rcr.min(400)],
        }
    }

    // Those of n macroblocks: whether there is room for them and all came.
    pub fn take(&mut self, n: usize) -> bool {
        read(&mut self.y, n.saturating_mul(256)).is_some()
            & read(&mut self.cb, n.saturating_mul(64)).is_some()
            & read(&mut self.cr, n.saturating_mul(64)).is_some()
    }
}

// The elements given, at place `at` and on. What passes the end is left out.
pub fn put<T: Copy>(to: &mut [T], at: usize, given: &[T]) {
    for (element, value) in to.iter_mut().skip(at).zip(given) {
        *element = *value;
    }
}

impl State {
    pub fn new() -> State {
        State {
            planes: Planes::new(),
            mv: [0; 200],
            marks: [0; 100],
        }
    }

    fn vector_bytes(&self) -> [u8; 800] {
        let mut bytes = [0u8; 800];
        for (four, component) in bytes.chunks_exact_mut(4).zip(&self.mv) {
            four.copy_from_slice(&component.to_le_bytes());
        }
        bytes
    }

    // The vectors and the marks of n macroblocks. What came of vectors that did not all come is kept too, as of the other parts.
    pub fn take_cells(&mut self, n: usize) -> bool {
        let mut bytes = self.vector_bytes();
        let vectors = read(&mut bytes, n.saturating_mul(128)).is_some();
        take_numbers(&mut self.mv, &bytes);
        vectors & read(&mut self.marks, n.saturating_mul(16)).is_some()
    }

    pub fn take(&mut self, n: usize) -> bool {
        self.planes.take(n) & self.take_cells(n)
    }

    // A byte, by its place in a list's row of all. One past the end is left out.
    fn put(&mut self, at: usize, byte: u8) {
        if at < 1600 {
            self.planes.y[at] = byte;
        } else if at < 2000 {
            self.planes.cb[at - 1600] = byte;
        } else if at < 2400 {
            self.planes.cr[at - 2000] = byte;
        } else if at < 2500 {
            self.marks[at - 2400] = byte;
        } else if at < 3300 {
            let i = (at - 2500) / 4;
            let mut four = self.mv[i].to_le_bytes();
            four[(at - 2500) % 4] = byte;
            self.mv[i] = i32::from_le_bytes(four);
        }
    }

    // A block's rows of w bytes, which lie `stride` apart from place `at` on. A row past the end of its part goes on into the next part.
    fn put_rows(&mut self, at: usize, stride: usize, w: usize, given: &[u8])
        requires { 0 < w }
    {
        for (r, row) in given.chunks_exact(w).enumerate() {
            let from = at.saturating_add(r.saturating_mul(stride));
            for (c, byte) in row.iter().enumerate() {
                self.put(from.saturating_add(c), *byte);
            }
        }
    }

    // The samples, vectors and marks of one macroblock. The grids of a list are small: ten bits of a column, a row or a width count.
    pub fn take_macroblock(&mut self, grid: Grid, call: Call) -> bool {
        let mut bytes = [0u8; 528];
        let whole = read(&mut bytes, 528).is_some();
        let cols = grid.cols % 1024;
        let x = call.column as usize % 1024;
        let y = call.row as usize % 1024;
        let luma = (16 * y) * (16 * cols) + 16 * x;
        let chroma = (8 * y) * (8 * cols) + 8 * x;
        self.put_rows(luma, 16 * cols, 16, &bytes[0..256]);
        self.put_rows(1600 + chroma, 8 * cols, 8, &bytes[256..320]);
        self.put_rows(2000 + chroma, 8 * cols, 8, &bytes[320..384]);
        self.put_rows(
            2500 + (4 * y) * (32 * cols) + 32 * x,
            32 * cols,
            32,
            &bytes[384..512],
        );
        self.put_rows(
            2400 + (4 * y) * (4 * cols) + 4 * x,
            4 * cols,
            4,
            &bytes[512..528],
        );
        whole
    }
}
