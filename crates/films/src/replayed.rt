// A replay, and the replay of a run's transcript.
use crate::head::{Film, Replayed};
use crate::lend::Given;
use lists::Told;
use picture::Picture;
use refusal::Refusal;
use replay::ReplayReport;
use replay::replay::replay;
use transcript::check::check_transcript;

fn answered(got: Result<ReplayReport, Refusal>, expected: Replayed) -> bool {
    match got {
        Ok(report) => {
            expected.refusal.is_none()
                & (report.records == expected.records)
                & (report.quantiser == expected.quantiser)
        }
        Err(why) => expected.refusal == Some(Told::from(why)),
    }
}

// Whether the replay is answered as expected.
pub fn agrees(
    picture: &mut Picture,
    transcript: &mut [u8],
    given: Given,
    expected: Replayed,
) -> bool {
    let film = given.film;
    let reference = given.reference;
    let got = replay(
        picture.y,
        picture.cb,
        picture.cr,
        picture.mv,
        picture.marks,
        reference.y,
        reference.cb,
        reference.cr,
        transcript,
        film.frame,
        film.before.quantiser,
    );
    answered(got, expected)
}

// The check of a transcript alone, with its refusal.
pub fn check_agrees(transcript: &[u8; 8192], film: &Film, refusal: Option<Told>) -> bool {
    let grid = film.frame.grid;
    let written = &transcript[..film.written.min(8192)];
    match check_transcript(written, grid.cols, grid.rows) {
        Ok(n) => refusal.is_none() & (n == film.replayed.records),
        Err(why) => refusal == Some(Told::from(why)),
    }
}
