// The readers of bits.
ghost use Rattle.std.specs.Prelude.{◌≤◌};

use crate::head::{Expected, Reader};
use bits::Bits;
use bits::svq3::read_universal_code;
use bits::svq3_mv::read_signed_code;
use levels::svq3_cbp::read_cbp_inter;
use levels::svq3_coeff::{
    ResidualBook, decode_chroma_dc_2x2, decode_residual_4x4_normal, resolve_level_run,
};
use lists::take_numbers;
use refusal::Refusal;
use vectors::svq3_mb::{
    Partition, num_motion_vectors, precision_number, read_inter_mv_precision_p_frame,
};

// One number, as C holds it.
fn number_agrees<T, F: FnOnce(T) -> i32>(
    expected: Expected,
    values: &[i32],
    read: Result<(T, usize), Refusal>,
    number: F,
) -> bool
    requires { F.IsAlwaysCallable number }
{
    match read {
        Ok((value, next)) => expected.accepts(next) & (values == [number(value)].as_slice()),
        Err(why) => expected.refuses(why),
    }
}

// The place is the code.
fn level_agrees(expected: Expected, values: &[i32], at: usize, book: ResidualBook) -> bool {
    let code = (at % 4294967296) as u32;
    match resolve_level_run(book, code) {
        Some((level, run)) => expected.accepts(at)
            & (values == [level, run.cast_signed()].as_slice()),
        None => expected.accepts(at) & values.is_empty(),
    }
}

// A list, left in `levels`.
fn list_agrees(
    expected: Expected,
    values: &[i32],
    read: Result<usize, Refusal>,
    levels: &[i32],
) -> bool {
    match read {
        Ok(next) => expected.accepts(next) & (values == levels),
        Err(why) => expected.refuses(why),
    }
}

// Whether value i is n.
fn value_is(values: &[i32], i: usize, n: usize) -> bool {
    match values.get(i) {
        Some(value) => usize::try_from(*value) == Ok(n),
        None => false,
    }
}

// Count, width, height, then each partition's place.
#[tactic(auto, using(crate::proofs::Few::few))]
fn partitions_agree(expected: Expected, values: &[i32], at: usize, mode: u32) -> bool
    requires { mode ≤ 7 }
{
    let n = num_motion_vectors(mode);
    if values.len() != 3 + 2 * n {
        return false;
    }
    let first = Partition::of_mode(mode, 0);
    let mut same = expected.accepts(at)
        & value_is(values, 0, n)
        & value_is(values, 1, 4 * first.wide)
        & value_is(values, 2, 4 * first.high);
    for (i, place) in values[3..].chunks_exact(2).enumerate() {
        let part = Partition::of_mode(mode, i);
        same &= value_is(place, 0, 4 * part.x) & value_is(place, 1, 4 * part.y);
    }
    same
}

// Whether a reader answers as expected.
pub fn agrees(reader: Reader, at: usize, expected: Expected, bits: Bits, answered: &[u8]) -> bool {
    let mut numbers = [0i32; 64];
    take_numbers(&mut numbers, answered);
    let Some(values) = numbers.get(..answered.len() / 4) else {
        return false;
    };
    match reader {
        Reader::UniversalCode => {
            let read = read_universal_code(bits, at);
            number_agrees(expected, values, read, |k| k.cast_signed())
        }
        Reader::SignedCode => number_agrees(expected, values, read_signed_code(bits, at), |v| v),
        Reader::Precision { halfpel, thirdpel } => {
            let read = read_inter_mv_precision_p_frame(bits, at, thirdpel, halfpel);
            let number = |p| precision_number(p).cast_signed();
            number_agrees(expected, values, read, number)
        }
        Reader::Pattern => {
            number_agrees(expected, values, read_cbp_inter(bits, at), |v| i32::from(v))
        }
        Reader::LevelRun(book) => level_agrees(expected, values, at, book),
        Reader::ResidualList(start) => {
            let mut levels = [0i32; 16];
            let read = decode_residual_4x4_normal(&mut levels, 0, bits, at, start % 2);
            list_agrees(expected, values, read, &levels)
        }
        Reader::ChromaDc => {
            let mut levels = [0i32; 4];
            let read = decode_chroma_dc_2x2(&mut levels, 0, bits, at);
            list_agrees(expected, values, read, &levels)
        }
        Reader::Partitions(mode) => partitions_agree(expected, values, at, mode % 8),
    }
}
