// The transcript check: every record is read before anything is done with one.
ghost use Rattle.std.specs.Prelude.{◌≡◌, true, ◌≤◌, drop};
ghost use Rattle.state.specs.Questions.{grid_right};
ghost use Rattle.record.specs.Parse.{parse_motion, parse_record};
ghost use Rattle.transcript.specs.Records.{records};
ghost use Rattle.refusal.specs.Answered.{reached};
ghost use Rattle.transcript.specs.Check.{check_answer, checked};

use crate::parse::{RecordStart, parse_motion, parse_place};
use picture::Grid;
use record::Head;
use refusal::Refusal;
use state::grid_right;

// What follows the mode of a record that is no skip.
fn check_coded(bytes: &[u8], at: usize, head: Head) -> Result<usize, Refusal>
    requires { head.mode ≤ 7 }
    ensures { result ≡ reached at (parse_motion head (drop at bytes.now)) }
{
    let mut vectors = [0i32; 32];
    let mut levels = [0i32; 392];
    let (_, next) = parse_motion(&mut vectors, &mut levels, bytes, at, head)?;
    Ok(next)
}

// The record at a place, which may lie anywhere, also past the end.
pub fn check_record(bytes: &[u8], at: usize, grid: Grid) -> Result<usize, Refusal>
    ensures { result ≡ reached at (parse_record grid.cols grid.rows (drop at bytes.now)) }
{
    let (start, next) = parse_place(bytes, at, grid)?;
    match start {
        RecordStart::Skip(_, _) => Ok(next),
        RecordStart::Coded(head) => check_coded(bytes, next, head),
    }
}

// The number of records, in a grid that is right.
pub fn check_records(bytes: &[u8], grid: Grid) -> Result<usize, Refusal>
    requires { grid_right grid.cols grid.rows ≡ true }
    ensures { result ≡ check_answer (records grid.cols grid.rows bytes.now) }
{
    let mut at = 0;
    let mut count: usize = 0;
    // a record says where the next one begins: no range counts them
    while at < bytes.len() {
        at = check_record(bytes, at, grid)?;
        count += 1;
    }
    Ok(count)
}

// The number of records.
pub fn check_transcript(bytes: &[u8], cols: usize, rows: usize) -> Result<usize, Refusal>
    ensures { result ≡ checked cols rows bytes.now }
{
    let grid = Grid { cols, rows };
    if grid_right(grid) {
        check_records(bytes, grid)
    } else {
        Err(Refusal::GridSize)
    }
}
