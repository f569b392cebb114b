// What a record asks for is read, with what it is to leave, and made in every form that there is of it.
use crate::decoded::read_back;
use crate::head::{Film, Work};
use crate::lend::{Case, Given, put_unwritten};
use crate::replayed::check_agrees;
use crate::start::{Planes, State, put};
use crate::{decoded, ran};
use lists::read;

// A macroblock and a run by value and by the thin entry; a run's transcript is replayed, and a replay's checked alone.
fn forms_agree(case: Case) -> bool {
    let given = case.given;
    let film = given.film;
    let expected = case.transcript;
    match film.work {
        Work::Macroblock(call) => {
            case.is_made(decoded::by_value, call)
                & case.is_made(decoded::thin, call)
                & read_back(expected, film, call)
        }
        Work::Run(ran) => {
            case.is_made(ran::by_value, ran) & case.is_made(ran::thin, ran) & case.is_replayed()
        }
        Work::Replay { check } => case.is_replayed() & check_agrees(expected, film, check),
    }
}

// The state that is to be left, where it is not the start. A refused macroblock leaves nothing of itself.
fn take_end(end: &mut State, film: &Film) -> bool {
    match film.work {
        Work::Macroblock(call) => {
            film.refusal.is_some() || end.take_macroblock(film.frame.grid, call)
        }
        _ => end.take(film.end % 256),
    }
}

// The transcript that is to be left: the record's bytes behind what was used, and what was there everywhere else.
// Not inlined, so that its array lies in no other function's part of the stack.
#[inline(never)]
fn take_transcript(expected: &mut [u8; 8192], film: &Film) -> bool {
    let mut bytes = [0u8; 8192];
    match read(&mut bytes, film.written) {
        Some(written) => {
            put(expected, film.used, written);
            true
        }
        None => false,
    }
}

// Whether what follows the head does as the answer behind it says. A macroblock's end is the next one's start; runs and replays begin where the list says.
pub fn film_agrees(state: &mut State, reference: &Planes, film: &Film) -> bool {
    let mut list = [0u8; 512];
    let mut bits = [0u8; 4096];
    let Some(list) = read(&mut list, film.list) else {
        return false;
    };
    let Some(bits) = read(&mut bits, film.bits) else {
        return false;
    };
    let mut expected = [0u8; 8192];
    put_unwritten(&mut expected);
    let mut end = *state;
    let written = take_transcript(&mut expected, film);
    let whole = take_end(&mut end, film);
    let given = Given {
        film,
        reference: reference.lent(film.lent),
        bits,
        list,
    };
    let same = forms_agree(Case {
        given,
        start: state,
        end: &end,
        transcript: &expected,
    });
    if let Work::Macroblock(_) = film.work {
        *state = end;
    }
    written & whole & same
}
