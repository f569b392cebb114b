// A run, made by value or by the thin entry.
use crate::head::{Film, Ran};
use crate::lend::Given;
use picture::Picture;
use refusal::Refusal;
use run::Report;
use run::run::run;
use state::Cursor;
use thin::run_at;

fn stopped(stop: Result<(), Refusal>, film: &Film) -> bool {
    match stop {
        Ok(()) => film.refusal.is_none(),
        Err(why) => film.refuses(why),
    }
}

fn reported(report: Report, cursor: Cursor, film: &Film, ran: Ran) -> bool {
    (report.accepted == ran.accepted)
        & (report.consumed == ran.consumed)
        & (report.cursor() == film.after)
        & (report.fill == film.written)
        & (cursor == film.after)
        & stopped(report.stop, film)
}

// By value: whether the run is reported as the head says.
pub fn by_value(picture: &mut Picture, transcript: &mut [u8], given: Given, ran: Ran) -> bool {
    let film = given.film;
    let reference = given.reference;
    let Cursor { place, quantiser } = film.before;
    let report = run(
        picture.y,
        picture.cb,
        picture.cr,
        picture.mv,
        picture.marks,
        transcript,
        reference.y,
        reference.cb,
        reference.cr,
        given.bits,
        given.list,
        film.frame,
        quantiser,
        place,
    );
    reported(report, report.cursor(), film, ran)
}

// The same by the thin entry.
pub fn thin(picture: &mut Picture, transcript: &mut [u8], given: Given, ran: Ran) -> bool {
    let film = given.film;
    let reference = given.reference;
    let mut cursor = film.before;
    let report = run_at(
        picture.y,
        picture.cb,
        picture.cr,
        picture.mv,
        picture.marks,
        transcript,
        reference.y,
        reference.cb,
        reference.cr,
        given.bits,
        given.list,
        &mut cursor,
        film.frame,
    );
    reported(report, cursor, film, ran)
}
