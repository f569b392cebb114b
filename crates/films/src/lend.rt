// A macroblock, a run or a replay is made from the start's parts, and all that it left is compared.
use crate::head::Film;
use crate::replayed;
use crate::start::State;
use picture::{Picture, Reference};

// A film, and what its entries are lent for reading.
#[derive(Clone, Copy)]
pub struct Given<'a> {
    pub film: &'a Film,
    pub reference: Reference<'a>,
    pub bits: &'a [u8],
    pub list: &'a [u8],
}

// What is given, where it starts, and the state and the transcript that are to be left.
#[derive(Clone, Copy)]
pub struct Case<'a> {
    pub given: Given<'a>,
    pub start: &'a State,
    pub end: &'a State,
    pub transcript: &'a [u8; 8192],
}

// A transcript of which nothing is written: bytes that no record has at every place, since each differs from its neighbours.
pub fn put_unwritten(transcript: &mut [u8; 8192]) {
    for (i, byte) in transcript.iter_mut().enumerate() {
        *byte = (i % 251) as u8;
    }
}

impl Case<'_> {
    // Whether answer, state and transcript are as expected. What is lent is the start of each part, as long as the head says, where the part has as much.
    // `made` makes the work by one entry, and says whether it is answered as expected.
    fn agrees<W, F: FnOnce(&mut Picture, &mut [u8], Given, W) -> bool>(
        &self,
        transcript: &mut [u8; 8192],
        room: usize,
        made: F,
        work: W,
    ) -> bool
        requires { F.IsAlwaysCallable made }
    {
        let mut left = *self.start;
        let lent = self.given.film.lent;
        let mut picture = Picture {
            y: &mut left.planes.y[..lent.y.min(1600)],
            cb: &mut left.planes.cb[..lent.cb.min(400)],
            cr: &mut left.planes.cr[..lent.cr.min(400)],
            mv: &mut left.mv[..lent.mv.min(200)],
            marks: &mut left.marks[..lent.marks.min(100)],
        };
        let room = room.min(8192);
        let answer = made(&mut picture, &mut transcript[..room], self.given, work);
        answer & (left == *self.end) & (*transcript == *self.transcript)
    }

    // A macroblock or a run. Not inlined, here and below: the state and the transcript of each form would lie beside those of the others on the stack.
    #[inline(never)]
    pub fn is_made<W, F: FnOnce(&mut Picture, &mut [u8], Given, W) -> bool>(
        &self,
        made: F,
        work: W,
    ) -> bool
        requires { F.IsAlwaysCallable made }
    {
        let mut transcript = [0u8; 8192];
        put_unwritten(&mut transcript);
        self.agrees(&mut transcript, self.given.film.room, made, work)
    }

    // A replay is lent what is written of the transcript, and leaves it as it is.
    #[inline(never)]
    pub fn is_replayed(&self) -> bool {
        let film = self.given.film;
        let mut transcript = *self.transcript;
        self.agrees(
            &mut transcript,
            film.written,
            replayed::agrees,
            film.replayed,
        )
    }
}
