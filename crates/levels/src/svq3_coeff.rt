// The (level, run) code books, and the lists of levels that their codes make. The books and lists are those of specs/Book.antt and specs/Levels.antt.
ghost use Rattle.std.specs.Prelude.{◌≡◌, ◌+◌, ◌≤◌, ◌<◌, ◌^◌, length, get_or, drop};
ghost use Rattle.std.proofs.lemmas.List.Edits.{sets};
ghost use Rattle.refusal.specs.Answered.{answered};
ghost use Rattle.bits.specs.Bits.{bit_list};
ghost use Rattle.bits.specs.InnerWindow.{Shows};
ghost use Rattle.levels.specs.Book.{positions, half, level_of, level, run, resolve};
ghost use Rattle.levels.specs.InnerShort.{entries, entry_level};
ghost use Rattle.levels.specs.Levels.{zeros, level_run, block};
ghost use Rattle.levels.specs.InnerLevels.{Stepped, Decoded};

use crate::digits::digit;
use crate::short_codes::{chroma_dc, normal_scan};
use crate::svq3_scan::{place_of, positions_of};
use bits::Bits;
use bits::svq3::read_universal_code;
use bits::window::{Window, pass, window_at};
use refusal::Refusal;

// The inter macroblock's two books.
#[derive(Clone, Copy)]
pub enum ResidualBook {
    // luma blocks and chroma AC blocks
    NormalScan,
    // the 2×2 chroma DC block
    ChromaDc,
}

// Magnitude and run by (code + 1) / 2: codes 2 h - 1 and 2 h have those of digit h, the one positive, the other negative.
const NORMAL_SCAN_MAGNITUDES: u64 = 0x4111_1223_1112_1110;

const NORMAL_SCAN_RUNS: u64 = 0x0987_6210_5430_2100;

const CHROMA_DC_MAGNITUDES: u64 = 0x0000_2234_1123_1210;

const CHROMA_DC_RUNS: u64 = 0x0000_3210_3210_1000;

// The first code that is no entry of the tables.
const NORMAL_SCAN_ESCAPE: u32 = 31;

const CHROMA_DC_ESCAPE: u32 = 23;

// By run: the least magnitude of an escape.
const NORMAL_SCAN_ESCAPE_LEVEL_BASE: [u32; 16] = [5, 3, 3, 2, 2, 2, 2, 2, 2, 2, 1, 1, 1, 1, 1, 1];

// By run: the code from which magnitude 3 counts on.
const CHROMA_DC_ESCAPE_CODE_BASE: [u32; 4] = [7, 17, 27, 29];

// The magnitude with the sign of its code: odd positive, even negative.
fn level_of(code: u32, magnitude: u32) -> i32
    requires { magnitude < 2 ^ 31 }
    ensures { result ≡ level_of code magnitude }
{
    let m = magnitude as i32;
    if code % 2 == 1 { m } else { -m }
}

// (code + 1) / 2, of any code.
fn half_of(code: u32) -> u32
    ensures { result ≡ half code }
{
    code / 2 + code % 2
}

// What a code says: a level and the number of positions that it leaves out before it; none is the end of a list.
pub fn resolve_level_run(book: ResidualBook, code: u32) -> Option<(i32, u32)>
    ensures { result ≡ resolve book code }
{
    if code == 0 {
        return None;
    }
    let half = half_of(code);
    let (magnitudes, runs, escape) = match book {
        ResidualBook::NormalScan => (NORMAL_SCAN_MAGNITUDES, NORMAL_SCAN_RUNS, NORMAL_SCAN_ESCAPE),
        ResidualBook::ChromaDc => (CHROMA_DC_MAGNITUDES, CHROMA_DC_RUNS, CHROMA_DC_ESCAPE),
    };
    if code < escape {
        let magnitude = digit(magnitudes, half);
        return Some((level_of(code, magnitude), digit(runs, half)));
    }
    let run = half % positions_of(book);
    let magnitude = match book {
        ResidualBook::NormalScan => (code - escape) / 32
            + NORMAL_SCAN_ESCAPE_LEVEL_BASE[run as usize],
        ResidualBook::ChromaDc => (code - CHROMA_DC_ESCAPE_CODE_BASE[run as usize]) / 8 + 3,
    };
    Some((level_of(code, magnitude), run))
}

// The next code of a list, read from the bytes.
fn read_level(
    bits: Bits,
    at: usize,
    book: ResidualBook,
) -> Result<(Option<(i32, u32)>, usize), Refusal>
    ensures { result ≡ answered at (level_run book (drop at (bit_list bits.entry.bytes.now))) }
{
    let (code, next) = read_universal_code(bits, at)?;
    Ok((resolve_level_run(book, code), next))
}

// What the look-up of a book says of seven bits, the first of them 0.
fn entry_of(book: ResidualBook, bits: u64) -> u32
    requires { bits < 64 }
    ensures { result ≡ get_or (entries book) bits 0 }
{
    match book {
        ResidualBook::NormalScan => normal_scan(bits),
        ResidualBook::ChromaDc => chroma_dc(bits),
    }
}

fn entry_level(entry: u32) -> i32
    ensures { result ≡ entry_level entry }
{
    (entry / 65536) as i32 - 4
}

// What the next code of a list says, the place behind it, and the window of the bits there.
#[derive(Clone, Copy)]
pub struct Taken {
    pub said: Option<(i32, u32)>,
    pub next: usize,
    pub window: Window,
}

// The next code of a list, read from the bytes, with a window taken anew behind it.
fn read_next(bits: Bits, at: usize, book: ResidualBook) -> Result<Taken, Refusal>
    ensures { Stepped book (bit_list bits.entry.bytes.now) at result }
{
    let (said, next) = read_level(bits, at, book)?;
    Ok(Taken {
        said,
        next,
        window: window_at(bits.bytes, next),
    })
}

// The next code of a list: taken from the window where all of its bits are there and are at most seven, else read from the bytes.
fn next_level(bits: Bits, at: usize, book: ResidualBook, window: Window) -> Result<Taken, Refusal>
    requires { Shows window.word window.known (drop at (bit_list bits.bytes.now)) }
    ensures { Stepped book (bit_list bits.entry.bytes.now) at result }
{
    let word = window.word;
    let known = window.known;
    if word < 0x8000_0000_0000_0000 {
        let entry = entry_of(book, word >> 57);
        let size = entry % 256;
        if size <= known {
            return Ok(Taken {
                said: Some((entry_level(entry), entry / 256 % 256)),
                next: at + size as usize,
                window: pass(window, size),
            });
        }
    } else {
        if 0 < known {
            return Ok(Taken {
                said: None,
                next: at + 1,
                window,
            });
        }
    }
    read_next(bits, at, book)
}

// The room of a list made 0, with a count that the compiler knows.
fn clear_list(out: &mut [i32], base: usize, book: ResidualBook)
    requires { base + positions book ≤ length out.old }
    ensures { out.new ≡ sets out.old base (zeros (positions book)) }
{
    match book {
        ResidualBook::NormalScan => out[base..base + 16].fill(0),
        ResidualBook::ChromaDc => out[base..base + 4].fill(0),
    }
}

// One list from a start position on. Each level is stored in `out` at once, by raster place, and a refused list leaves 0: an array of its own,
// copied at the end, would be read by wide loads that wait for its narrow stores.
fn decode_list(
    out: &mut [i32],
    base: usize,
    bits: Bits,
    at: usize,
    book: ResidualBook,
    start: u32,
) -> Result<usize, Refusal>
    requires { (base + positions book ≤ length out.old) × (start ≤ positions book) }
    ensures { Decoded at (positions book) (block book start (drop at (bit_list bits.entry.bytes.now))) out.old base result out.new }
{
    let count = positions_of(book);
    clear_list(out, base, book);
    let mut position = start;
    let mut p = at;
    let mut window = window_at(bits.bytes, at);
    loop {
        match next_level(bits, p, book, window) {
            Ok(taken) => {
                let Some((level, run)) = taken.said else {
                    return Ok(taken.next);
                };
                let reached = position + run;
                if count <= reached {
                    clear_list(out, base, book);
                    return Err(Refusal::LevelPosition(reached));
                }
                let place = place_of(book, reached);
                out[base + place] = level;
                position = reached + 1;
                p = taken.next;
                window = taken.window;
            }
            Err(r) => {
                clear_list(out, base, book);
                return Err(r);
            }
        }
    }
}

// A 4×4 block's list, from position 0, or from 1 where only the AC levels are sent. It and the next one are `decode_list` by the Rust's names.
// The start is a number with the clause that it is at most 1, here and where such lists are read and parsed: positions are counted on from it,
// and an enum would be turned into it at once.
pub fn decode_residual_4x4_normal(
    out: &mut [i32],
    base: usize,
    bits: Bits,
    at: usize,
    start: u32,
) -> Result<usize, Refusal>
    requires { (base + 16 ≤ length out.old) × (start ≤ 1) }
    ensures { Decoded at 16 (block ResidualBook.NormalScan start (drop at (bit_list bits.entry.bytes.now))) out.old base result out.new }
{
    decode_list(out, base, bits, at, ResidualBook::NormalScan, start)
}

// The four chroma DC levels of a plane.
pub fn decode_chroma_dc_2x2(
    out: &mut [i32],
    base: usize,
    bits: Bits,
    at: usize,
) -> Result<usize, Refusal>
    requires { base + 4 ≤ length out.old }
    ensures { Decoded at 4 (block ResidualBook.ChromaDc 0 (drop at (bit_list bits.entry.bytes.now))) out.old base result out.new }
{
    decode_list(out, base, bits, at, ResidualBook::ChromaDc, 0)
}
