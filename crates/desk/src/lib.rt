#![tactic(auto)]
// What a host calls: numbers and slices in, one number out, and counts. The crate desk_c exports it for C.
// The entries have up to 21 parameters, since C lends each slice and gives each number by itself.
ghost use Rattle.std.specs.Prelude.{◌≡◌, length};
ghost use Rattle.compensation.specs.Block.{block_answer, block_out};
ghost use Rattle.transcript.specs.Check.{checked};
ghost use Rattle.macroblock.specs.Entry.{state_before};
ghost use Rattle.desk.specs.Given.{frame_of};
ghost use Rattle.desk.specs.Answer.{done_code, check_code};
ghost use Rattle.desk.specs.Entries.{slices_of, slices_before, slices_after, ended, call_of, mb_ended, run_ended, replay_ended};

use crate::given::frame_of;
use crate::told::{refused, tell_macroblock, tell_replay, tell_run};
use compensation::svq3_mc::motion_compensate_block;
use macroblock::svq3_frame::decode_inter_mb;
use replay::replay::replay;
use run::run::run;
use state::Call;
use transcript::check::check_transcript;

pub mod given;
pub mod told;

// How many counts an entry writes.
const MB_COUNTS: usize = 5;

const RUN_COUNTS: usize = 5;

const REPLAY_COUNTS: usize = 2;

// The answer where there are fewer, and then nothing is done.
const OUTPUT_ROOM: i64 = -18;

// One macroblock. The counts: place, quantiser, fill, clipped components, detail.
pub fn svq3_macroblock(
    cols: u64,
    rows: u64,
    flags: u32,
    delta: u32,
    quantiser: u32,
    ry: &[u8],
    rcb: &[u8],
    rcr: &[u8],
    y: &mut [u8],
    cb: &mut [u8],
    cr: &mut [u8],
    mv: &mut [i32],
    marks: &mut [u8],
    column: u32,
    row: u32,
    mode: u32,
    bits: &[u8],
    place: u64,
    transcript: &mut [u8],
    fill: u64,
    counts: &mut [u64],
) -> i64
    ensures { ended result (slices_after y cb cr mv marks transcript counts)
        ≡ mb_ended (state_before (frame_of cols rows flags delta) quantiser ry rcb rcr y cb cr mv marks) (slices_before y cb cr mv marks transcript counts) (call_of column row mode) bits.now place fill }
{
    if counts.len() < MB_COUNTS {
        return OUTPUT_ROOM;
    }
    let frame = frame_of(cols, rows, flags, delta);
    let call = Call { column, row, mode };
    let answer = decode_inter_mb(
        y,
        cb,
        cr,
        mv,
        marks,
        transcript,
        ry,
        rcb,
        rcr,
        bits,
        frame,
        call,
        quantiser,
        place as usize,
        fill as usize,
    );
    tell_macroblock(counts, answer, place, quantiser, fill)
}

// A run. The counts: accepted calls, consumed bits, fill, quantiser, detail.
pub fn svq3_run(
    cols: u64,
    rows: u64,
    flags: u32,
    delta: u32,
    quantiser: u32,
    ry: &[u8],
    rcb: &[u8],
    rcr: &[u8],
    y: &mut [u8],
    cb: &mut [u8],
    cr: &mut [u8],
    mv: &mut [i32],
    marks: &mut [u8],
    calls: &[u8],
    bits: &[u8],
    place: u64,
    transcript: &mut [u8],
    counts: &mut [u64],
) -> i64
    ensures { ended result (slices_after y cb cr mv marks transcript counts)
        ≡ run_ended (state_before (frame_of cols rows flags delta) quantiser ry rcb rcr y cb cr mv marks) (slices_before y cb cr mv marks transcript counts) calls.now bits.now place }
{
    if counts.len() < RUN_COUNTS {
        return OUTPUT_ROOM;
    }
    let frame = frame_of(cols, rows, flags, delta);
    let report = run(
        y,
        cb,
        cr,
        mv,
        marks,
        transcript,
        ry,
        rcb,
        rcr,
        bits,
        calls,
        frame,
        quantiser,
        place as usize,
    );
    tell_run(counts, report)
}

// The replay of a transcript. The counts: records, quantiser.
pub fn svq3_replay(
    cols: u64,
    rows: u64,
    quantiser: u32,
    ry: &[u8],
    rcb: &[u8],
    rcr: &[u8],
    y: &mut [u8],
    cb: &mut [u8],
    cr: &mut [u8],
    mv: &mut [i32],
    marks: &mut [u8],
    transcript: &[u8],
    counts: &mut [u64],
) -> i64
    ensures { ended result (slices_of y.new cb.new cr.new mv.new marks.new transcript.now counts.new)
        ≡ replay_ended (state_before (frame_of cols rows 0 0) quantiser ry rcb rcr y cb cr mv marks) (slices_of y.old cb.old cr.old mv.old marks.old transcript.now counts.old) }
{
    if counts.len() < REPLAY_COUNTS {
        return OUTPUT_ROOM;
    }
    // a replay reads no bits, so that no flag counts
    let frame = frame_of(cols, rows, 0, 0);
    let answer = replay(
        y, cb, cr, mv, marks, ry, rcb, rcr, transcript, frame, quantiser,
    );
    tell_replay(counts, answer, quantiser)
}

// The compensated block of `plane` at (x, y), w × h samples by rows, into `out`; on refusal `out` keeps its bytes.
pub fn svq3_compensate_block(
    plane: &[u8],
    width: u64,
    height: u64,
    x: i32,
    y: i32,
    w: u64,
    h: u64,
    vx: i32,
    vy: i32,
    out: &mut [u8],
) -> i64
    ensures value { result ≡ done_code (block_answer (length plane.now) width height w h (length out.old)) }
    ensures out_after { out.new ≡ block_out out.old plane.now width height x y w h vx vy }
{
    let answer = motion_compensate_block(
        out,
        plane,
        width as usize,
        height as usize,
        x,
        y,
        w as usize,
        h as usize,
        vx,
        vy,
    );
    match answer {
        Ok(()) => 0,
        Err(why) => refused(why),
    }
}

// The number of records of a transcript for a grid, or minus the refusal's number.
pub fn svq3_check_transcript(cols: u64, rows: u64, bytes: &[u8]) -> i64
    ensures { result ≡ check_code (checked cols rows bytes.now) }
{
    match check_transcript(bytes, cols as usize, rows as usize) {
        Ok(n) => n as i64,
        Err(why) => refused(why),
    }
}
