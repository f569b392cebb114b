// The taps of a block: where the first lies, and, for a block across an edge, all of them by rows, edges repeated.
ghost use Rattle.std.specs.Prelude.{◌≡◌, ℕ, ◌+◌, ◌-◌, ◌*◌, ◌%◌, ◌<◌, ◌≤◌, length, get_or, replicate};
ghost use Rattle.picture.specs.InnerRows.{row, run};
ghost use Rattle.compensation.specs.InnerKernel.{origin_of, near, near_from, picked, picked_at, window_at, Wide, run_at, edge_at};

use crate::plane::Plane;
use picture::rows::store_row;
use std::array;

// The column, or row, of a block's first tap, held and counted from -17.
pub fn origin(first: i64, n: usize) -> usize
    requires { (0 < n) × (n ≤ 65536) }
    ensures { result ≡ origin_of n first }
{
    let last = (n - 1) as i64;
    let held = first.clamp(-17, last);
    (held + 17) as usize
}

fn near_of(n: usize, i: usize) -> usize
    requires { 0 < n }
    ensures { (result ≡ near n i) × (result < n) }
{
    i.saturating_sub(17).min(n - 1)
}

// The columns of the taps of a row: they are the same in every row of a block.
fn columns_of(width: usize, bx: usize) -> [usize; 17]
    requires { (0 < width) × (bx ≤ 131072) }
    ensures { result ≡ row (replicate 17 0) 0 (near_from width bx) 17 }
{
    array::from_fn(|c| near_of(width, bx + c))
}

// A place with 17 more, here and below: a slice of just these would be cut out anew for each row, and `store_row` takes a place.
fn gather_row(window: &mut [u8], plane: &[u8], columns: &[usize; 17], at: usize, line: usize)
    requires { (at + 17 ≤ length window.old) × ((k : ℕ) → k < 17 → line + get_or columns.now k 0 < length plane.now) }
    ensures { window.new ≡ row window.old at (picked plane.now line columns.now) 17 }
{
    for (c, column) in columns.iter().enumerate() {
        window[at + c] = plane[line + *column];
    }
}

// 17 taps of each of h rows, the first of them at by, one by one: the first of rows of 34 places.
// What is asked of `window` and `h` is asked by `gather` too: an array of 17 rows would ask more of who calls that with fewer. That `by` is no further than 16 below the plane ties two arguments.
fn gather_each(window: &mut [u8], plane: Plane, columns: &[usize; 17], by: usize, h: usize)
    requires h_in_bounds { (h * 34 ≤ length window.old) × (h ≤ 17) }
    requires place { (by ≤ plane.size.height + 16) × ((k : ℕ) → k < 17 → get_or columns.now k 0 < plane.size.width) }
    ensures { Wide window.new 0 h (picked_at plane.entry.samples.now columns.now plane.entry.size.width plane.entry.size.height by) }
{
    for r in 0..h {
        let line = near_of(plane.size.height, by + r) * plane.size.width;
        gather_row(window, plane.samples, columns, r * 34, line);
    }
}

fn fill_run(window: &mut [u8], at: usize, sample: u8)
    requires { at + 17 ≤ length window.old }
    ensures { window.new ≡ row window.old at (λ k. sample) 17 }
{
    window[at..at + 17].fill(sample);
}

// The plain form would be one `copy_from_slice`: the check does not find its proof alone (tried), while `store_row` promises a row as this does. 16 × 16 whole samples across an edge took 13 % more instructions with it.
fn copy_run(window: &mut [u8], at: usize, plane: &[u8], from: usize)
    requires { (at + 17 ≤ length window.old) × (from + 17 ≤ length plane.now) }
    ensures { window.new ≡ row window.old at (run plane.now from) 17 }
{
    let last = plane[from + 16];
    store_row(window, at, plane, from, 16);
    window[at + 16] = last;
}

// 17 samples of each of h lines, from the column `from` on, into rows of 34 places: the first of them.
fn gather_between(window: &mut [u8], plane: Plane, by: usize, h: usize, from: usize)
    requires h_in_bounds { (h * 34 ≤ length window.old) × (h ≤ 17) }
    requires place { (by ≤ plane.size.height + 16) × (from + 17 ≤ plane.size.width) }
    ensures { Wide window.new 0 h (run_at plane.entry.samples.now plane.entry.size.width plane.entry.size.height by from) }
{
    for r in 0..h {
        let line = near_of(plane.size.height, by + r) * plane.size.width;
        copy_run(window, r * 34, plane.samples, line + from);
    }
}

// The same from the place `to` of each row on; and the sample of the column `edge` in the row's other 17 places.
fn gather_beside(
    window: &mut [u8],
    plane: Plane,
    by: usize,
    h: usize,
    from: usize,
    to: usize,
    edge: usize,
)
    requires h_in_bounds { (h * 34 ≤ length window.old) × (h ≤ 17) × (to ≤ 17) × (to % 17 ≡ 0) }
    requires place { (by ≤ plane.size.height + 16) × (from + 17 ≤ plane.size.width) × (edge < plane.size.width) }
    ensures wide { Wide window.new to h (run_at plane.entry.samples.now plane.entry.size.width plane.entry.size.height by from) }
    ensures wide_2 { Wide window.new (17 - to) h (edge_at plane.entry.samples.now plane.entry.size.width plane.entry.size.height by edge) }
{
    for r in 0..h {
        let line = near_of(plane.size.height, by + r) * plane.size.width;
        let sample = plane.samples[line + edge];
        copy_run(window, r * 34 + to, plane.samples, line + from);
        fill_run(window, r * 34 + (17 - to), sample);
    }
}

// 17 taps of each of h rows, the first of them at (bx, by): a row of 34 places holds them from the answer on.
// Left of the plane a row is 17 times the line's first sample, then its first 17; right of it the last 17, then 17 times the last.
// Between, and one by one, only the row's first 17 places are written.
// Runs of known length need no loop, and nothing is clamped by column. A plane of less than 17 columns has no such runs.
pub fn gather(window: &mut [u8], plane: Plane, bx: usize, by: usize, h: usize) -> usize
    requires h_in_bounds { (h * 34 ≤ length window.old) × (h ≤ 17) }
    requires place { (bx ≤ plane.size.width + 16) × (by ≤ plane.size.height + 16) }
    ensures { (result ≤ 17) × Wide window.new result h (window_at plane.entry.samples.now plane.entry.size.width plane.entry.size.height bx by) }
{
    let width = plane.size.width;
    if width < 17 {
        let columns = columns_of(width, bx);
        gather_each(window, plane, &columns, by, h);
        return 0;
    }
    if bx < 17 {
        gather_beside(window, plane, by, h, 0, 17, 0);
        return bx;
    }
    if width < bx {
        gather_beside(window, plane, by, h, width - 17, 0, width - 1);
        return bx - width;
    }
    gather_between(window, plane, by, h, bx - 17);
    0
}
