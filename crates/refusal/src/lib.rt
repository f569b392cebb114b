#![tactic(auto)]
// Why a call is refused, and readers that answer or refuse. Document 01's number and detail of each refusal are `number_of` and `detail_of` of specs/Refusal.antt.

ghost use Rattle.std.specs.Prelude.{◌≡◌};
ghost use Rattle.refusal.specs.Refusal.{number_of, detail_of};

// The names are the Rust's where it has one; it says BadBitWidth for LevelPosition too.
#[derive(Clone, Copy)]
pub enum Refusal {
    // the grid is not 1 to 4,096 macroblocks both ways
    GridSize,
    // a picture plane, the vectors or the marks have another length than the grid's
    StateLength,
    // every reference plane is empty
    MissingReference,
    // a reference plane has another length than the grid's
    ReferenceLength,
    // mode above 7, or a place outside the grid
    CallRange,
    // quantiser above 31
    QuantiserRange,
    // bit place past the bits
    BitPlace,
    // fewer transcript bytes free than a record may need
    TranscriptRoom,
    // no bit left
    Truncated,
    // a code with more data bits than a reader takes: their number
    BadBitWidth(u32),
    // a pattern code without an entry: the code
    InvalidFrameCode(u32),
    // a quantiser outside 0 to 31: its exact value
    InvalidQuantiser(i64),
    // a level past the end of its list: the position
    LevelPosition(u32),
    // a number that is incomplete or not in its form
    NumberForm,
    // a value outside its field's range
    FieldRange,
}

// Two numbers are made of a refusal: a `From` for each type would not say which.
pub fn number_of(r: Refusal) -> u32
    ensures { result ≡ number_of r }
{
    match r {
        Refusal::GridSize => 1,
        Refusal::StateLength => 2,
        Refusal::MissingReference => 3,
        Refusal::ReferenceLength => 4,
        Refusal::CallRange => 5,
        Refusal::QuantiserRange => 6,
        Refusal::BitPlace => 7,
        Refusal::TranscriptRoom => 8,
        Refusal::Truncated => 9,
        Refusal::BadBitWidth(_) => 10,
        Refusal::InvalidFrameCode(_) => 11,
        Refusal::InvalidQuantiser(_) => 12,
        Refusal::LevelPosition(_) => 13,
        Refusal::NumberForm => 14,
        Refusal::FieldRange => 15,
    }
}

pub fn detail_of(r: Refusal) -> i64
    ensures { result ≡ detail_of r }
{
    match r {
        Refusal::BadBitWidth(n) => n as i64,
        Refusal::InvalidFrameCode(code) => code as i64,
        Refusal::InvalidQuantiser(q) => q,
        Refusal::LevelPosition(at) => at as i64,
        _ => 0,
    }
}
