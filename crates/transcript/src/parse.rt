// A record is read back from the bytes of a transcript.
ghost use Rattle.std.specs.Prelude.{◌≡◌, List, ◌++◌, ◌+◌, ◌≤◌, ◌<◌, ℤ, length, drop};
ghost use Rattle.std.proofs.lemmas.List.Edits.{sets};
ghost use Rattle.refusal.specs.Got.{map_got};
ghost use Rattle.refusal.specs.Answered.{answered};
ghost use Rattle.record.specs.Record.{no_vectors};
ghost use Rattle.levels.specs.Levels.{zeros};
ghost use Rattle.levels.specs.Items.{no_levels, item_start, item_count, item_place};
ghost use Rattle.record.specs.Parse.{field, read_signeds, parse_item, parse_items, parse_residual, parse_motion};
ghost use Rattle.levels.specs.InnerAnswers.{Left};
ghost use Rattle.transcript.specs.InnerParsing.{Parsing, place_answer};
ghost use Rattle.transcript.specs.InnerPlace.{parse_place};
ghost use Rattle.transcript.specs.InnerReceived.{short_received, short_at, Received};

use levels::items::{group_end, item_coded, item_place};
use number::{read_number, read_signed_number, received_of};
use picture::Grid;
use record::{Head, place_head, with_motion, with_residual};
use refusal::Refusal;
use vectors::svq3_mb::num_motion_vectors;

// What stands at the start of a record: its place and mode.
#[derive(Clone, Copy)]
pub enum RecordStart {
    // column and row of a skip, which has nothing more
    Skip(u32, u32),
    // the head of another record, filled as far as its mode
    Coded(Head),
}

// A number that is at most `most`.
fn read_field(bytes: &[u8], at: usize, most: u32) -> Result<(u32, usize), Refusal>
    ensures { result ≡ answered at (field most (drop at bytes.now)) }
{
    let (v, next) = read_number(bytes, at)?;
    if v <= most {
        Ok((v, next))
    } else {
        Err(Refusal::FieldRange)
    }
}

// Column, row and mode of the record at a place, which may lie anywhere, also past the end.
// Inlined, since its answer would go through memory: the check of a transcript of skips took half as many instructions more.
#[inline(always)]
pub fn parse_place(bytes: &[u8], at: usize, grid: Grid) -> Result<(RecordStart, usize), Refusal>
    ensures { result ≡ place_answer at (parse_place grid.cols grid.rows (drop at bytes.now)) }
{
    let (column, p) = read_number(bytes, at)?;
    let (row, q) = read_number(bytes, p)?;
    let (mode, next) = read_number(bytes, q)?;
    if ((column as usize) < grid.cols) & ((row as usize) < grid.rows) & (mode <= 7) {
        if mode == 0 {
            Ok((RecordStart::Skip(column, row), next))
        } else {
            Ok((RecordStart::Coded(place_head(column, row, mode)), next))
        }
    } else {
        Err(Refusal::FieldRange)
    }
}

// Signed numbers, as many as there is room for.
// Inlined: as a call of its own it is a tenth more of the instructions of a check.
#[inline(always)]
fn read_signed_numbers(out: &mut [i32], bytes: &[u8], at: usize) -> Result<usize, Refusal>
    ensures { Left at (read_signeds (length out.old) (drop at bytes.now)) result out.new }
{
    let mut p = at;
    for number in out.iter_mut() {
        let (v, next) = read_signed_number(bytes, p)?;
        *number = v;
        p = next;
    }
    Ok(p)
}

// Whether each of sixteen bytes is a short number: one byte by itself.
fn all_short(bytes: &[u8], at: usize) -> bool
    requires { at + 16 ≤ length bytes.now }
    ensures { result ≡ short_received bytes.now at 16 }
{
    let mut short = true;
    for byte in &bytes[at..at + 16] {
        short = short & (*byte < 128);
    }
    short
}

// Whether there are sixteen bytes, the first of them `ahead` before `at`, and each is a short number.
fn short_at(bytes: &[u8], at: usize, ahead: usize) -> bool
    ensures { result ≡ short_at bytes.now at ahead }
{
    if at < ahead {
        return false;
    }
    if bytes.len() < 16 {
        return false;
    }
    if bytes.len() - 16 < at - ahead {
        return false;
    }
    all_short(bytes, at - ahead)
}

// What sixteen bytes stand for, each by itself.
fn take_received(bytes: &[u8], at: usize) -> [i32; 16]
    requires { at + 16 ≤ length bytes.now }
    ensures { Received bytes.now at 16 result }
{
    let mut t = [0i32; 16];
    for (i, byte) in bytes[at..at + 16].iter().enumerate() {
        t[i] = received_of(u32::from(*byte));
    }
    t
}

// Sixteen levels from the place `first` on, of which the first `start`, 0 or 1 of them, are 0. `start` is a number with its bound as a
// clause here and in levels: places are computed with it, and of a type of its own each function would take the number out again.
fn store_received(out: &mut [i32], t: &[i32; 16], first: usize, start: usize)
    requires { (start ≤ 1) × (first + 16 ≤ length out.old) }
    ensures { out.new ≡ sets out.old first (zeros start ++ drop start t.now) }
{
    out[first..first + 16].copy_from_slice(t);
    if start == 1 {
        out[first] = 0;
    }
}

// The first place of list i that is sent.
fn item_start(i: usize) -> usize
    ensures { result ≡ item_start i }
{
    if i < 18 { 0 } else { 1 }
}

// The number of its places.
fn item_count(i: usize) -> usize
    ensures { result ≡ item_count i }
{
    if i < 16 {
        return 16;
    }
    if i < 18 { 4 } else { 16 }
}

// List i, stored at its place. Most numbers are short: a list of sixteen places is then read at once, all bytes before a level is stored, as in picture's store_row. An AC list's place 0 is not sent, and the byte before the list is taken for it.
fn parse_item(levels: &mut [i32; 392], bytes: &[u8], at: usize, i: usize) -> Result<usize, Refusal>
    requires { i < 26 }
    ensures { Left at (map_got (sets levels.old (item_place i)) (parse_item i (drop at bytes.now))) result levels.new }
{
    let place = item_place(i);
    let start = item_start(i);
    let count = item_count(i);
    if count == 16 {
        if short_at(bytes, at, start) {
            let t = take_received(bytes, at - start);
            store_received(levels, &t, place, start);
            return Ok(at - start + 16);
        }
    }
    levels[place] = 0;
    read_signed_numbers(&mut levels[place + start..place + count], bytes, at)
}

fn parse_items(
    levels: &mut [i32; 392],
    bytes: &[u8],
    at: usize,
    pattern: u8,
) -> Result<usize, Refusal>
    ensures { Left at (parse_items 26 0 pattern levels.old (drop at bytes.now)) result levels.new }
{
    let mut p = at;
    let mut i = 0;
    // a list that is not coded leaps to the end of its group: no range has these steps
    while i < 26 {
        if item_coded(pattern, i) {
            p = parse_item(levels, bytes, p, i)?;
            i += 1;
        } else {
            i = group_end(i);
        }
    }
    Ok(p)
}

// Pattern, quantiser, levels. That they are zeros is a clause here, in parse_motion and in reading: it holds before the call alone, and a
// type would hold it afterwards too.
#[inline(always)]
fn parse_residual(
    levels: &mut [i32; 392],
    bytes: &[u8],
    at: usize,
    head: Head,
) -> Result<(Head, usize), Refusal>
    requires { levels.old ≡ no_levels }
    ensures { (vs : List ℤ) → Parsing at (parse_residual head vs (drop at bytes.now)) result vs levels.new }
{
    let (pattern, p) = read_field(bytes, at, 47)?;
    let (quantiser, q) = read_field(bytes, p, 31)?;
    let next = parse_items(levels, bytes, q, pattern as u8)?;
    Ok((with_residual(head, pattern, quantiser), next))
}

// What follows the mode of a record that is no skip, into arrays of zeros: precision, clipped count, vectors, and the residual.
// Inlined, as the place of a record is.
#[inline(always)]
pub fn parse_motion(
    vectors: &mut [i32; 32],
    levels: &mut [i32; 392],
    bytes: &[u8],
    at: usize,
    head: Head,
) -> Result<(Head, usize), Refusal>
    requires { (vectors.old ≡ no_vectors) × (levels.old ≡ no_levels) × (head.mode ≤ 7) }
    ensures { Parsing at (parse_motion head (drop at bytes.now)) result vectors.new levels.new }
{
    let used = 2 * num_motion_vectors(head.mode);
    let (precision, p) = read_field(bytes, at, 2)?;
    let (clipped, q) = read_field(bytes, p, used as u32)?;
    let next = read_signed_numbers(&mut vectors[..used], bytes, q)?;
    parse_residual(levels, bytes, next, with_motion(head, precision, clipped))
}
