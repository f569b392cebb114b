#![tactic(auto)]
// Grid, flags, call, cursor and lengths, and the questions before a macroblock: on numbers alone, the lengths of the slices among them.

ghost use Rattle.std.specs.Prelude.{◌≡◌, true, ◌≤◌};
ghost use Rattle.picture.specs.InnerPicture.{Within};
ghost use Rattle.picture.specs.InnerLent.{contents};
ghost use Rattle.state.specs.InnerSizes.{lent_lengths};
ghost use Rattle.state.specs.Questions.{grid_right, planes_right, state_right, reference_there, call_right, place_in, yes, then_ask, ask_start, ask_quantiser, ask_place, ask_rest, ask_call, ask_run, ask_replay, sides_fit};

use picture::{Grid, Picture, Reference};
use refusal::Refusal;

#[derive(Clone, Copy, PartialEq)]
pub struct Call {
    pub column: u32,
    pub row: u32,
    // a number, as C gives it: question 5 refuses what is no mode, and tables are read by it
    pub mode: u32,
}

// A macroblock that is in its grid, by one of the eight modes: a call after question 5, or a record that was read.
#[derive(Clone, Copy)]
pub struct Macroblock {
    pub grid: Grid,
    pub call: Call,
    pub ghost within: { Within grid.cols grid.rows call.column call.row },
    pub ghost mode: { call.mode ≤ 7 },
}

// What the sequence header and the slice header say of reading.
#[derive(Clone, Copy)]
pub struct Flags {
    pub halfpel: bool,
    pub thirdpel: bool,
    pub delta: bool,
}

// What a run has fixed: the grid and the flags.
#[derive(Clone, Copy)]
pub struct Frame {
    pub grid: Grid,
    pub flags: Flags,
}

// The caller's own record of place and quantiser.
#[derive(Clone, Copy, PartialEq)]
pub struct Cursor {
    pub place: usize,
    pub quantiser: u32,
}

// The lengths of the picture's planes, the vectors, the marks and the reference's planes.
#[derive(Clone, Copy)]
pub struct Lengths {
    pub y: usize,
    pub cb: usize,
    pub cr: usize,
    pub mv: usize,
    pub marks: usize,
    pub ry: usize,
    pub rcb: usize,
    pub rcr: usize,
}

impl Lengths {
    // Those of a picture and of the planes that it is predicted from.
    pub fn of(pic: &Picture, reference: Reference) -> Self
        ensures { result ≡ lent_lengths (contents pic.now) reference.entry }
    {
        Lengths {
            y: pic.y.len(),
            cb: pic.cb.len(),
            cr: pic.cr.len(),
            mv: pic.mv.len(),
            marks: pic.marks.len(),
            ry: reference.y.len(),
            rcb: reference.cb.len(),
            rcr: reference.cr.len(),
        }
    }
}

pub fn grid_right(grid: Grid) -> bool
    ensures { result ≡ grid_right grid.cols grid.rows }
{
    (1 <= grid.cols) & (grid.cols <= 4096) & (1 <= grid.rows) & (grid.rows <= 4096)
}

// That a grid passed question 1 is a clause where cells or samples are counted with it: `Grid` and `Frame` hold whatever an entry is given, and a second pair of types for a grid that was asked would say no more.
fn planes_right(grid: Grid, y: usize, cb: usize, cr: usize) -> bool
    requires { grid_right grid.cols grid.rows ≡ true }
    ensures { result ≡ planes_right grid.cols grid.rows y cb cr }
{
    let n = grid.cols * grid.rows;
    (y == 256 * n) & (cb == 64 * n) & (cr == 64 * n)
}

fn state_right(grid: Grid, l: Lengths) -> bool
    requires { grid_right grid.cols grid.rows ≡ true }
    ensures { result ≡ state_right grid.cols grid.rows l }
{
    let n = grid.cols * grid.rows;
    planes_right(grid, l.y, l.cb, l.cr) & (l.mv == 2 * (16 * n)) & (l.marks == 16 * n)
}

fn reference_there(l: Lengths) -> bool
    ensures { result ≡ reference_there l }
{
    (0 < l.ry) | (0 < l.rcb) | (0 < l.rcr)
}

fn call_right(grid: Grid, call: Call) -> bool
    ensures { result ≡ call_right grid.cols grid.rows call }
{
    (call.mode <= 7) & ((call.column as usize) < grid.cols) & ((call.row as usize) < grid.rows)
}

// Whether the place of question 7 lies in a bit slice of `size` bytes.
fn place_in(size: usize, place: usize) -> bool
    ensures { result ≡ place_in size place }
{
    size < 0x2000_0000_0000_0000 && place <= 8 * size
}

// A question: the refusal where the answer is no.
fn ask(test: bool, why: Refusal) -> Result<(), Refusal>
    ensures { result ≡ then_ask test why yes }
{
    if test { Ok(()) } else { Err(why) }
}

// Questions 1 to 4.
fn ask_start(grid: Grid, l: Lengths) -> Result<(), Refusal>
    ensures { result ≡ ask_start grid.cols grid.rows l yes }
{
    ask(grid_right(grid), Refusal::GridSize)?;
    ask(state_right(grid, l), Refusal::StateLength)?;
    ask(reference_there(l), Refusal::MissingReference)?;
    ask(
        planes_right(grid, l.ry, l.rcb, l.rcr),
        Refusal::ReferenceLength,
    )
}

// Question 6.
fn ask_quantiser(quantiser: u32) -> Result<(), Refusal>
    ensures { result ≡ ask_quantiser quantiser yes }
{
    ask(quantiser <= 31, Refusal::QuantiserRange)
}

// Question 7, of a bit slice of `size` bytes.
fn ask_place(size: usize, place: usize) -> Result<(), Refusal>
    ensures { result ≡ ask_place size place yes }
{
    ask(place_in(size, place), Refusal::BitPlace)
}

// Questions 1 to 4 and 6: of a replay.
pub fn ask_replay(grid: Grid, l: Lengths, quantiser: u32) -> Result<(), Refusal>
    ensures { result ≡ ask_replay grid.cols grid.rows l quantiser }
{
    ask_start(grid, l)?;
    ask_quantiser(quantiser)
}

// Questions 1 to 4, 6 and 7: of a run with no call.
pub fn ask_run(
    grid: Grid,
    l: Lengths,
    quantiser: u32,
    size: usize,
    place: usize,
) -> Result<(), Refusal>
    ensures { result ≡ ask_run grid.cols grid.rows l quantiser size place }
{
    ask_replay(grid, l, quantiser)?;
    ask_place(size, place)
}

// Questions 5 to 8.
fn ask_rest(
    grid: Grid,
    call: Call,
    quantiser: u32,
    size: usize,
    place: usize,
    free: usize,
) -> Result<(), Refusal>
    ensures { result ≡ ask_rest grid.cols grid.rows call quantiser size place free }
{
    ask(call_right(grid, call), Refusal::CallRange)?;
    ask_quantiser(quantiser)?;
    ask_place(size, place)?;
    ask(2089 <= free, Refusal::TranscriptRoom)
}

// Questions 1 to 8: of a call.
pub fn ask_call(
    grid: Grid,
    l: Lengths,
    call: Call,
    quantiser: u32,
    size: usize,
    place: usize,
    free: usize,
) -> Result<(), Refusal>
    ensures { result ≡ ask_call grid.cols grid.rows l call quantiser size place free }
{
    ask_start(grid, l)?;
    ask_rest(grid, call, quantiser, size, place, free)
}

// 1 to `most` samples a side, and a length that matches.
pub fn sides_fit(most: usize, w: usize, h: usize, size: usize) -> bool
    requires { most ≤ 65536 }
    ensures { result ≡ sides_fit most w h size }
{
    (1 <= w) & (w <= most) & (1 <= h) & (h <= most) && size == w * h
}
