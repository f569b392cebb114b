// A macroblock decoded into the picture, the vectors, the marks and the transcript.
ghost use Rattle.std.specs.Prelude.{◌≡◌, ◌<◌};
ghost use Rattle.state.specs.Questions.{yes};
ghost use Rattle.macroblock.specs.Decode.{asked, decoded};
ghost use Rattle.picture.specs.InnerLent.{contents, with_contents};
ghost use Rattle.macroblock.specs.Entry.{state_before, state_after, quantiser_by, mb_left};
ghost use Rattle.macroblock.specs.InnerSource.{state_of_source};

use crate::{MbReport, Source};
use apply::Coded;
use apply::applied::{apply_coded, apply_skip};
use bits::Bits;
use picture::{Cells, Picture, Reference};
use reading::svq3_frame::read_coded;
use refusal::Refusal;
use state::{Call, Cursor, Frame, Lengths, Macroblock, ask_call};
use transcript::write::{put_coded, put_skip};

// A macroblock that is no skip: read, then written and applied.
// That all questions were answered with yes is a clause of three functions: it is about all that they are given, the lengths of the slices too.
// The transcript's fill is a number beside it, as C gives the two.
fn decode_coded(
    pic: &mut Picture,
    transcript: &mut [u8],
    source: Source,
    call: Call,
    cursor: Cursor,
    fill: usize,
) -> Result<MbReport, Refusal>
    requires fill_value { asked (state_of_source source cursor.quantiser (contents pic.old)) call source.bits.now cursor.place transcript.old fill ≡ yes }
    requires mode_nonzero { 0 < call.mode }
    ensures left { mb_left result (state_of_source source.entry (quantiser_by cursor.quantiser result) (contents pic.new)) transcript.new
        ≡ decoded (state_of_source source.entry cursor.quantiser (contents pic.old)) call source.entry.bits.now cursor.place transcript.old fill }
    ensures same_slices { pic.new ≡ with_contents pic.old (contents pic.new) }
{
    let mut vectors = [0i32; 32];
    let mut levels = [0i32; 392];
    let Frame { grid, flags } = source.frame;
    let mv = &mut *pic.mv;
    let marks = &mut *pic.marks;
    let cells = Cells { grid, mv, marks };
    let bits = Bits { bytes: source.bits };
    let mb = Macroblock { grid, call };
    let (head, next) = read_coded(&mut vectors, &mut levels, cells, bits, mb, flags, cursor)?;
    let filled = put_coded(transcript, &vectors, &levels, fill, head);
    let coded = Coded {
        grid,
        head,
        vectors: &vectors,
        levels: &levels,
    };
    apply_coded(pic, source.reference, coded);
    Ok(MbReport {
        place: next,
        quantiser: head.quantiser,
        fill: filled,
        clipped: head.clipped,
    })
}

// A skip reads nothing: its blocks are copied, and its record is its place and its mode.
fn decode_skip(
    pic: &mut Picture,
    transcript: &mut [u8],
    source: Source,
    call: Call,
    cursor: Cursor,
    fill: usize,
) -> Result<MbReport, Refusal>
    requires fill_value { asked (state_of_source source cursor.quantiser (contents pic.old)) call source.bits.now cursor.place transcript.old fill ≡ yes }
    requires mode_value { call.mode ≡ 0 }
    ensures left { mb_left result (state_of_source source.entry (quantiser_by cursor.quantiser result) (contents pic.new)) transcript.new
        ≡ decoded (state_of_source source.entry cursor.quantiser (contents pic.old)) call source.entry.bits.now cursor.place transcript.old fill }
    ensures same_slices { pic.new ≡ with_contents pic.old (contents pic.new) }
{
    let fill = put_skip(transcript, fill, call.column, call.row);
    let column = call.column as usize;
    let row = call.row as usize;
    apply_skip(pic, source.reference, source.frame.grid, column, row);
    Ok(MbReport {
        place: cursor.place,
        quantiser: cursor.quantiser,
        fill,
        clipped: 0,
    })
}

// A call whose questions were all answered with yes.
fn decode_asked(
    pic: &mut Picture,
    transcript: &mut [u8],
    source: Source,
    call: Call,
    cursor: Cursor,
    fill: usize,
) -> Result<MbReport, Refusal>
    requires { asked (state_of_source source cursor.quantiser (contents pic.old)) call source.bits.now cursor.place transcript.old fill ≡ yes }
    ensures left { mb_left result (state_of_source source.entry (quantiser_by cursor.quantiser result) (contents pic.new)) transcript.new
        ≡ decoded (state_of_source source.entry cursor.quantiser (contents pic.old)) call source.entry.bits.now cursor.place transcript.old fill }
    ensures same_slices { pic.new ≡ with_contents pic.old (contents pic.new) }
{
    if call.mode == 0 {
        decode_skip(pic, transcript, source, call, cursor, fill)
    } else {
        decode_coded(pic, transcript, source, call, cursor, fill)
    }
}

// One macroblock at a bit place: refused, it leaves everything as it was. Slices and numbers come one by one, as a C host has them.
pub fn decode_inter_mb(
    y: &mut [u8],
    cb: &mut [u8],
    cr: &mut [u8],
    mv: &mut [i32],
    marks: &mut [u8],
    transcript: &mut [u8],
    ry: &[u8],
    rcb: &[u8],
    rcr: &[u8],
    bits: &[u8],
    frame: Frame,
    call: Call,
    quantiser: u32,
    place: usize,
    fill: usize,
) -> Result<MbReport, Refusal>
    ensures { mb_left result (state_after frame (quantiser_by quantiser result) ry rcb rcr y cb cr mv marks) transcript.new
        ≡ decoded (state_before frame quantiser ry rcb rcr y cb cr mv marks) call bits.now place transcript.old fill }
{
    // Read one by one and at once: a wide load of two numbers that were just stored apart would wait for every store before them.
    let column = call.column;
    let row = call.row;
    let mode = call.mode;
    let made = Call { column, row, mode };
    let mut pic = Picture {
        y,
        cb,
        cr,
        mv,
        marks,
    };
    let reference = Reference {
        y: ry,
        cb: rcb,
        cr: rcr,
    };
    let l = Lengths::of(&pic, reference);
    let free = transcript.len().saturating_sub(fill);
    ask_call(frame.grid, l, made, quantiser, bits.len(), place, free)?;
    let source = Source {
        frame,
        reference,
        bits,
    };
    let cursor = Cursor { place, quantiser };
    decode_asked(&mut pic, transcript, source, made, cursor, fill)
}
