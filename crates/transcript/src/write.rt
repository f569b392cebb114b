// A record is written to the transcript.
ghost use Rattle.std.specs.Prelude.{◌≡◌, map, ◌+◌, ◌*◌, ◌≤◌, ◌<◌, length, take, drop};
ghost use Rattle.std.proofs.lemmas.List.Edits.{sets};
ghost use Rattle.record.specs.Write.{signed_numbers, items_bytes, rest_bytes, record_bytes};
ghost use Rattle.record.specs.InnerSides.{side_bytes};
ghost use Rattle.record.specs.InnerRecord.{record_of};
ghost use Rattle.record.specs.Record.{skip_record};
ghost use Rattle.transcript.specs.Written.{Written};
ghost use Rattle.transcript.specs.InnerSent.{held_of, sent_short, short_sent, Held};
ghost use Rattle.record.specs.Range.{HeadRange};

use levels::svq3_cbp::{chroma_class, luma_quadrant_coded};
use levels::svq3_coeff::ResidualBook;
use number::{put_number, put_signed_number};
use record::Head;
use vectors::svq3_mb::num_motion_vectors;

// Signed numbers, one after another.
fn put_signed_numbers(out: &mut [u8], numbers: &[i32], at: usize) -> usize
    requires { at + length (signed_numbers numbers.now) ≤ length out.old }
    ensures { Written out.old at (signed_numbers numbers.now) result out.new }
{
    let mut p = at;
    for v in numbers {
        p = put_signed_number(out, p, *v);
    }
    p
}

// A number held in -128 to 127, and counted from -128 on.
fn held_of(v: i32) -> u8
    ensures { result ≡ held_of v }
{
    (v.clamp(-128, 127) + 128) as u8
}

// What a short number is sent as, by its `held_of`. Numbers from -64 to 63 are short: one byte each.
fn sent_short(held: u8) -> u8
    ensures { result ≡ sent_short held }
{
    let twice = 2 * (held % 128);
    if twice < 128 { twice } else { 255 - twice }
}

// `held_of` of each number: the first of sixteen. Each is a byte, so that the compiler has sixteen in a register.
fn take_held(numbers: &[i32]) -> [u8; 16]
    requires { length numbers.now ≤ 16 }
    ensures { Held numbers.now 0 (length numbers.now) result }
{
    let mut t = [0u8; 16];
    for (i, v) in numbers.iter().enumerate() {
        t[i] = held_of(*v);
    }
    t
}

// Whether each is that of a short number.
fn all_short(held: &[u8]) -> bool
    ensures { result ≡ short_sent held.now (length held.now) }
{
    let mut short = true;
    for h in held {
        short = short & (64 <= *h) & (*h < 192);
    }
    short
}

fn put_short(out: &mut [u8], held: &[u8], at: usize)
    requires { at + length held.now ≤ length out.old }
    ensures { out.new ≡ sets out.old at (map sent_short held.now) }
{
    for (i, h) in held.iter().enumerate() {
        out[at + i] = sent_short(*h);
    }
}

// Signed numbers, most of them short. All are read before one is written, as in picture's store_row. Its callers' lists have a length that is a literal, so that the compiler knows each loop's length.
fn put_list(out: &mut [u8], numbers: &[i32], at: usize) -> usize
    requires { (length numbers.now ≤ 16) × (at + length (signed_numbers numbers.now) ≤ length out.old) }
    ensures { Written out.old at (signed_numbers numbers.now) result out.new }
{
    let sixteen = take_held(numbers);
    let held = &sixteen[..numbers.len()];
    if all_short(held) {
        put_short(out, held, at);
        return at + held.len();
    }
    put_signed_numbers(out, numbers, at)
}

// The four lists of a luma quadrant, which stand side by side from `place` on.
fn put_blocks(out: &mut [u8], levels: &[i32], at: usize, place: usize) -> usize
    requires { (place + 64 ≤ length levels.now) × (at + length (side_bytes ResidualBook.NormalScan 0 4 place levels.now) ≤ length out.old) }
    ensures { Written out.old at (side_bytes ResidualBook.NormalScan 0 4 place levels.now) result out.new }
{
    let mut p = at;
    for list in levels[place..place + 64].chunks_exact(16) {
        p = put_list(out, list, p);
    }
    p
}

// The eight chroma AC lists, which have no place 0.
fn put_ac(out: &mut [u8], levels: &[i32; 392], at: usize) -> usize
    requires { at + length (side_bytes ResidualBook.NormalScan 1 8 264 levels.now) ≤ length out.old }
    ensures { Written out.old at (side_bytes ResidualBook.NormalScan 1 8 264 levels.now) result out.new }
{
    let mut p = at;
    for list in levels[264..392].chunks_exact(16) {
        p = put_list(out, &list[1..], p);
    }
    p
}

// The lists of luma quadrant q, where they are coded.
fn put_quadrant(out: &mut [u8], levels: &[i32; 392], at: usize, pattern: u8, q: usize) -> usize
    requires { (q < 4) × (at + length (items_bytes 4 (4 * q) pattern levels.now) ≤ length out.old) }
    ensures { Written out.old at (items_bytes 4 (4 * q) pattern levels.now) result out.new }
{
    if luma_quadrant_coded(pattern, q as u32) {
        return put_blocks(out, levels, at, 64 * q);
    }
    at
}

// The chroma lists that are coded.
fn put_chroma(out: &mut [u8], levels: &[i32; 392], at: usize, pattern: u8) -> usize
    requires { at + length (items_bytes 10 16 pattern levels.now) ≤ length out.old }
    ensures { Written out.old at (items_bytes 10 16 pattern levels.now) result out.new }
{
    let class = chroma_class(pattern);
    if class == 0 {
        return at;
    }
    // Cb DC and Cr DC stand side by side
    let p = put_list(out, &levels[256..264], at);
    if class == 2 {
        return put_ac(out, levels, p);
    }
    p
}

fn put_items(out: &mut [u8], levels: &[i32; 392], at: usize, pattern: u8) -> usize
    requires { at + length (items_bytes 26 0 pattern levels.now) ≤ length out.old }
    ensures { Written out.old at (items_bytes 26 0 pattern levels.now) result out.new }
{
    let mut p = at;
    for q in 0..4 {
        p = put_quadrant(out, levels, p, pattern, q);
    }
    put_chroma(out, levels, p, pattern)
}

// What follows the mode of a record that is no skip.
fn put_rest(
    out: &mut [u8],
    vectors: &[i32; 32],
    levels: &[i32; 392],
    at: usize,
    head: Head,
) -> usize
    requires { HeadRange head × (at + length (rest_bytes (record_of head vectors.now levels.now)) ≤ length out.old) }
    ensures { Written out.old at (rest_bytes (record_of head vectors.now levels.now)) result out.new }
{
    let p = put_number(out, at, head.precision);
    let p = put_number(out, p, head.clipped);
    let p = put_signed_numbers(out, &vectors[..2 * num_motion_vectors(head.mode)], p);
    let p = put_number(out, p, head.pattern);
    let p = put_number(out, p, head.quantiser);
    put_items(out, levels, p, head.pattern as u8)
}

// Writes a record that is no skip from a place on, and answers the place after it.
pub fn put_coded(
    out: &mut [u8],
    vectors: &[i32; 32],
    levels: &[i32; 392],
    at: usize,
    head: Head,
) -> usize
    requires { HeadRange head × (0 < head.mode) × (at + 2089 ≤ length out.old) }
    ensures { Written out.old at (record_bytes (record_of head vectors.now levels.now)) result out.new }
{
    let p = put_number(out, at, head.column);
    let p = put_number(out, p, head.row);
    let p = put_number(out, p, head.mode);
    put_rest(out, vectors, levels, p, head)
}

// The same of a skip, which has a place and a mode alone.
pub fn put_skip(out: &mut [u8], at: usize, column: u32, row: u32) -> usize
    requires { (column < 4096) × (row < 4096) × (at + 2089 ≤ length out.old) }
    ensures { Written out.old at (record_bytes (skip_record column row)) result out.new }
{
    let p = put_number(out, at, column);
    let p = put_number(out, p, row);
    put_number(out, p, 0)
}
