#![tactic(auto)]
// The desk's entries for C: each calls the function of its name in `desk`, and ensures what that ensures. include/svq3_desk.h declares them.
// The entries have up to 21 parameters, since C lends each slice and gives each number by itself.
ghost use Rattle.std.specs.Prelude.{◌≡◌, length};
ghost use Rattle.compensation.specs.Block.{block_answer, block_out};
ghost use Rattle.transcript.specs.Check.{checked};
ghost use Rattle.macroblock.specs.Entry.{state_before};
ghost use Rattle.desk.specs.Given.{frame_of};
ghost use Rattle.desk.specs.Answer.{done_code, check_code};
ghost use Rattle.desk.specs.Entries.{slices_of, slices_before, slices_after, ended, call_of, mb_ended, run_ended, replay_ended};

// One macroblock. The counts: place, quantiser, fill, clipped components, detail.
#[unsafe(no_mangle)]
pub extern "C" fn svq3_macroblock(
    cols: u64,
    rows: u64,
    flags: u32,
    delta: u32,
    quantiser: u32,
    ry: &[u8],
    rcb: &[u8],
    rcr: &[u8],
    y: &mut [u8],
    cb: &mut [u8],
    cr: &mut [u8],
    mv: &mut [i32],
    marks: &mut [u8],
    column: u32,
    row: u32,
    mode: u32,
    bits: &[u8],
    place: u64,
    transcript: &mut [u8],
    fill: u64,
    counts: &mut [u64],
) -> i64
    ensures { ended result (slices_after y cb cr mv marks transcript counts)
        ≡ mb_ended (state_before (frame_of cols rows flags delta) quantiser ry rcb rcr y cb cr mv marks) (slices_before y cb cr mv marks transcript counts) (call_of column row mode) bits.now place fill }
{
    desk::svq3_macroblock(
        cols, rows, flags, delta, quantiser, ry, rcb, rcr, y, cb, cr, mv, marks, column, row, mode,
        bits, place, transcript, fill, counts,
    )
}

// A run. The counts: accepted calls, consumed bits, fill, quantiser, detail.
#[unsafe(no_mangle)]
pub extern "C" fn svq3_run(
    cols: u64,
    rows: u64,
    flags: u32,
    delta: u32,
    quantiser: u32,
    ry: &[u8],
    rcb: &[u8],
    rcr: &[u8],
    y: &mut [u8],
    cb: &mut [u8],
    cr: &mut [u8],
    mv: &mut [i32],
    marks: &mut [u8],
    calls: &[u8],
    bits: &[u8],
    place: u64,
    transcript: &mut [u8],
    counts: &mut [u64],
) -> i64
    ensures { ended result (slices_after y cb cr mv marks transcript counts)
        ≡ run_ended (state_before (frame_of cols rows flags delta) quantiser ry rcb rcr y cb cr mv marks) (slices_before y cb cr mv marks transcript counts) calls.now bits.now place }
{
    desk::svq3_run(
        cols, rows, flags, delta, quantiser, ry, rcb, rcr, y, cb, cr, mv, marks, calls, bits,
        place, transcript, counts,
    )
}

// The replay of a transcript. The counts: records, quantiser.
#[unsafe(no_mangle)]
pub extern "C" fn svq3_replay(
    cols: u64,
    rows: u64,
    quantiser: u32,
    ry: &[u8],
    rcb: &[u8],
    rcr: &[u8],
    y: &mut [u8],
    cb: &mut [u8],
    cr: &mut [u8],
    mv: &mut [i32],
    marks: &mut [u8],
    transcript: &[u8],
    counts: &mut [u64],
) -> i64
    ensures { ended result (slices_of y.new cb.new cr.new mv.new marks.new transcript.now counts.new)
        ≡ replay_ended (state_before (frame_of cols rows 0 0) quantiser ry rcb rcr y cb cr mv marks) (slices_of y.old cb.old cr.old mv.old marks.old transcript.now counts.old) }
{
    desk::svq3_replay(
        cols, rows, quantiser, ry, rcb, rcr, y, cb, cr, mv, marks, transcript, counts,
    )
}

// The compensated block of `plane` at (x, y), w × h samples by rows, into `out`; on refusal `out` keeps its bytes.
#[unsafe(no_mangle)]
pub extern "C" fn svq3_compensate_block(
    plane: &[u8],
    width: u64,
    height: u64,
    x: i32,
    y: i32,
    w: u64,
    h: u64,
    vx: i32,
    vy: i32,
    out: &mut [u8],
) -> i64
    ensures value { result ≡ done_code (block_answer (length plane.now) width height w h (length out.old)) }
    ensures out_after { out.new ≡ block_out out.old plane.now width height x y w h vx vy }
{
    desk::svq3_compensate_block(plane, width, height, x, y, w, h, vx, vy, out)
}

// The number of records of a transcript for a grid, or minus the refusal's number.
#[unsafe(no_mangle)]
pub extern "C" fn svq3_check_transcript(cols: u64, rows: u64, bytes: &[u8]) -> i64
    ensures { result ≡ check_code (checked cols rows bytes.now) }
{
    desk::svq3_check_transcript(cols, rows, bytes)
}
