// The entry that moves on the caller's record.
ghost use Rattle.std.specs.Prelude.{◌≡◌};
ghost use Rattle.macroblock.specs.Decode.{decoded};
ghost use Rattle.macroblock.specs.Entry.{state_before, state_after, mb_left, cursor_by};

use macroblock::svq3_frame::decode_inter_mb;
use macroblock::{MbReport, cursor_by};
use refusal::Refusal;
use state::{Call, Cursor, Frame};

// One macroblock from the caller's own place and quantiser, which move on.
pub fn decode_inter_mb_at(
    y: &mut [u8],
    cb: &mut [u8],
    cr: &mut [u8],
    mv: &mut [i32],
    marks: &mut [u8],
    transcript: &mut [u8],
    ry: &[u8],
    rcb: &[u8],
    rcr: &[u8],
    bits: &[u8],
    cursor: &mut Cursor,
    frame: Frame,
    call: Call,
    fill: usize,
) -> Result<MbReport, Refusal>
    ensures { (mb_left result (state_after frame cursor.new.quantiser ry rcb rcr y cb cr mv marks) transcript.new
        ≡ decoded (state_before frame cursor.old.quantiser ry rcb rcr y cb cr mv marks) call bits.now cursor.old.place transcript.old fill)
        × (cursor.new ≡ cursor_by cursor.old.place cursor.old.quantiser result) }
{
    let place = cursor.place;
    let quantiser = cursor.quantiser;
    let answer = decode_inter_mb(
        y, cb, cr, mv, marks, transcript, ry, rcb, rcr, bits, frame, call, quantiser, place, fill,
    );
    *cursor = cursor_by(place, quantiser, answer);
    answer
}
