// The run of an input, and what is printed of it.
ghost use Rattle.std.specs.Prelude.{◌≡◌, ◌++◌, ◌+◌, ◌*◌, ◌≤◌, ◌<◌, length, take};
ghost use Rattle.transcript.specs.Records.{records};
ghost use Rattle.transcript.specs.Written.{Written};
ghost use Rattle.run.specs.Run.{ran_list};
ghost use Rattle.run.specs.Left.{list_left};
ghost use Rattle.replay.specs.InnerRecorded.{Recorded};
ghost use Rattle.printing.specs.Header.{HeaderRange};
ghost use Rattle.printing.specs.Text.{bits_line};
ghost use Rattle.printing.specs.Print.{start, room, lines_of, stop_lines, printed_run, printed};

use crate::header::{Header, read_header, read_list};
use crate::text::{put_bits, put_hex_line, put_refused};
use picture::Grid;
use refusal::Refusal;
use run::Report;
use run::run::run;
use state::Frame;
use transcript::check::check_record;

// The transcript of a run, and the grid that its records are of.
#[derive(Clone, Copy)]
struct Transcript<'a> {
    bytes: &'a [u8],
    grid: Grid,
    ghost wide: { grid.cols ≤ 4096 },
    ghost high: { grid.rows ≤ 4096 },
}

// The records of a transcript, each on a line.
fn put_records(out: &mut [u8], transcript: Transcript, at: usize) -> usize
    requires recorded { Recorded transcript.grid.cols transcript.grid.rows transcript.bytes.now }
    requires room { at + length (lines_of (records transcript.grid.cols transcript.grid.rows transcript.bytes.now)) ≤ length out.old }
    ensures { Written out.old at (lines_of (records transcript.entry.grid.cols transcript.entry.grid.rows transcript.entry.bytes.now)) result out.new }
{
    let bytes = transcript.bytes;
    let mut p = at;
    let mut i = 0;
    // a record says where the next one begins: no range counts them
    while i < bytes.len() {
        let Ok(next) = check_record(bytes, i, transcript.grid) else {
            return p;
        };
        p = put_hex_line(out, &bytes[i..next], p);
        i = next;
    }
    p
}

fn put_stop(out: &mut [u8], at: usize, stop: Result<(), Refusal>) -> usize
    requires { at + length (stop_lines stop) ≤ length out.old }
    ensures { Written out.old at (stop_lines stop) result out.new }
{
    match stop {
        Ok(()) => at,
        Err(why) => put_refused(out, at, why),
    }
}

// What a run did: its records, its bits, and the refusal that stopped it.
fn put_run(
    out: &mut [u8; 100352],
    transcript: Transcript,
    consumed: usize,
    stop: Result<(), Refusal>,
) -> usize
    requires { Recorded transcript.grid.cols transcript.grid.rows transcript.bytes.now × (length transcript.bytes.now ≤ 33424) }
    ensures { (result ≤ 100352) × Written out.old 0 (lines_of (records transcript.entry.grid.cols transcript.entry.grid.rows transcript.entry.bytes.now) ++ bits_line consumed ++ stop_lines stop) result out.new }
{
    let p = put_records(out, transcript, 0);
    let p = put_bits(out, p, consumed);
    put_stop(out, p, stop)
}

// Macroblocks of the header's grid. `HeaderRange` is a clause, here and below: `From` takes any header.
fn macroblocks(h: Header) -> usize
    requires { HeaderRange h }
    ensures { (result ≡ h.grid.cols * h.grid.rows) × (result ≤ 16) }
{
    h.grid.cols * h.grid.rows
}

// The run of a list from the printer's start.
fn run_start(transcript: &mut [u8], list: &[u8], bits: &[u8], h: Header) -> Report
    requires { HeaderRange h }
    ensures { (result ≡ (list_left (start h) list.now bits.now 0 transcript.old).report) × (transcript.new ≡ (list_left (start h) list.now bits.now 0 transcript.old).transcript) }
{
    let mut y = [0u8; 4096];
    let mut cb = [0u8; 1024];
    let mut cr = [0u8; 1024];
    let mut mv = [0i32; 512];
    let mut marks = [0u8; 256];
    let ry = [128u8; 4096];
    let rcb = [128u8; 1024];
    let rcr = [128u8; 1024];
    let n = macroblocks(h);
    let luma = 256 * n;
    let chroma = 64 * n;
    let numbers = 32 * n;
    let cells = 16 * n;
    run(
        &mut y[..luma],
        &mut cb[..chroma],
        &mut cr[..chroma],
        &mut mv[..numbers],
        &mut marks[..cells],
        transcript,
        &ry[..luma],
        &rcb[..chroma],
        &rcr[..chroma],
        bits,
        list,
        Frame::from(h),
        h.quantiser,
        0,
    )
}

// The run of a list, printed.
fn print_list(out: &mut [u8; 100352], list: &[u8], bits: &[u8], h: Header) -> usize
    requires { HeaderRange h }
    ensures { (result ≤ 100352) × Written out.old 0 (printed_run (start h) (ran_list (start h) list.now bits.now 0 room)) result out.new }
{
    let mut transcript = [0u8; 33424];
    let report = run_start(&mut transcript, list, bits, h);
    let fill = report.fill;
    let stop = report.stop;
    let transcript = Transcript {
        bytes: &transcript[..fill],
        grid: h.grid,
    };
    put_run(out, transcript, report.consumed, stop)
}

// The whole input, printed.
fn print_input(out: &mut [u8; 100352], input: &[u8]) -> usize
    ensures { (result ≤ 100352) × Written out.old 0 (printed input.now) result out.new }
{
    match read_header(input) {
        Ok((h, at)) => match read_list(input, at, h.count) {
            Ok(end) => print_list(out, &input[at..end], &input[end..], h),
            Err(why) => put_refused(out, 0, why),
        },
        Err(why) => put_refused(out, 0, why),
    }
}

// What the printer prints, written to the start of `out`: its length. Input past 32,768 bytes is absent.
pub fn print(out: &mut [u8; 100352], input: &[u8]) -> usize
    ensures { (result ≤ 100352) × Written out.old 0 (printed (take 32768 input.now)) result out.new }
{
    if input.len() <= 32768 {
        return print_input(out, input);
    }
    print_input(out, &input[..32768])
}
