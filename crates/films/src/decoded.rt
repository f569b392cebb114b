// A macroblock, decoded by value or by the thin entry.
use crate::head::Film;
use crate::lend::Given;
use macroblock::svq3_frame::decode_inter_mb;
use macroblock::{MbReport, cursor_by};
use picture::Picture;
use refusal::Refusal;
use state::{Call, Cursor};
use thin::svq3_frame::decode_inter_mb_at;
use transcript::check::check_record;
use transcript::parse::{RecordStart, parse_place};

// A refusal leaves the cursor where the call found it.
fn answered(answer: Result<MbReport, Refusal>, cursor: Cursor, film: &Film) -> bool {
    let Cursor { place, quantiser } = film.before;
    let told = cursor_by(place, quantiser, answer);
    match answer {
        Ok(report) => {
            film.refusal.is_none()
                & (report.fill == film.used.saturating_add(film.written))
                & (told == film.after)
                & (cursor == film.after)
        }
        Err(why) => film.refuses(why) & (cursor == film.before),
    }
}

// By value: whether the macroblock is answered as the head says.
pub fn by_value(picture: &mut Picture, transcript: &mut [u8], given: Given, call: Call) -> bool {
    let film = given.film;
    let reference = given.reference;
    let Cursor { place, quantiser } = film.before;
    let answer = decode_inter_mb(
        picture.y,
        picture.cb,
        picture.cr,
        picture.mv,
        picture.marks,
        transcript,
        reference.y,
        reference.cb,
        reference.cr,
        given.bits,
        film.frame,
        call,
        quantiser,
        place,
        film.used,
    );
    answered(answer, cursor_by(place, quantiser, answer), film)
}

// The same by the thin entry.
pub fn thin(picture: &mut Picture, transcript: &mut [u8], given: Given, call: Call) -> bool {
    let film = given.film;
    let reference = given.reference;
    let mut cursor = film.before;
    let answer = decode_inter_mb_at(
        picture.y,
        picture.cb,
        picture.cr,
        picture.mv,
        picture.marks,
        transcript,
        reference.y,
        reference.cb,
        reference.cr,
        given.bits,
        &mut cursor,
        film.frame,
        call,
        film.used,
    );
    answered(answer, cursor, film)
}

// Column, row and mode of the record are the call's.
fn placed(transcript: &[u8], film: &Film, call: Call) -> bool {
    let (column, row, mode) = match parse_place(transcript, film.used, film.frame.grid) {
        Ok((RecordStart::Skip(column, row), _)) => (column, row, 0),
        Ok((RecordStart::Coded(h), _)) => (h.column, h.row, h.mode),
        Err(_) => return false,
    };
    call == Call { column, row, mode }
}

// Whether an accepted macroblock's record is read back to the call and to its end; a refused one has no record.
pub fn read_back(transcript: &[u8], film: &Film, call: Call) -> bool {
    if film.refusal.is_some() {
        return true;
    }
    match check_record(transcript, film.used, film.frame.grid) {
        Ok(next) => {
            (next == film.used.saturating_add(film.written)) & placed(transcript, film, call)
        }
        Err(_) => false,
    }
}
