// What a C caller is told: the answer as one number, and the counts.
ghost use Rattle.std.specs.Prelude.{◌≡◌, ◌≤◌, length};
ghost use Rattle.std.proofs.lemmas.List.Edits.{sets};
ghost use Rattle.desk.specs.Answer.{refusal_code, done_code};
ghost use Rattle.desk.specs.Counts.{mb_counts, run_counts, replay_counts};

use macroblock::MbReport;
use refusal::{Refusal, detail_of, number_of};
use replay::ReplayReport;
use run::Report;

// Minus the refusal's number.
pub fn refused(why: Refusal) -> i64
    ensures { result ≡ refusal_code why }
{
    -(number_of(why) as i64)
}

// The counts told, from the first on.
fn put<const N: usize>(counts: &mut [u64], told: &[u64; N])
    requires { N ≤ length counts.old }
    ensures { counts.new ≡ sets counts.old 0 told.now }
{
    counts[..N].copy_from_slice(told);
}

pub fn tell_macroblock(
    counts: &mut [u64],
    answer: Result<MbReport, Refusal>,
    place: u64,
    quantiser: u32,
    fill: u64,
) -> i64
    requires { 5 ≤ length counts.old }
    ensures { (result ≡ done_code answer) × (counts.new ≡ sets counts.old 0 (mb_counts answer place quantiser fill)) }
{
    match answer {
        Ok(report) => {
            let told = [
                report.place as u64,
                report.quantiser as u64,
                report.fill as u64,
                report.clipped as u64,
                0,
            ];
            put(counts, &told);
            0
        }
        Err(why) => {
            let detail = detail_of(why).cast_unsigned();
            put(counts, &[place, quantiser as u64, fill, 0, detail]);
            refused(why)
        }
    }
}

pub fn tell_run(counts: &mut [u64], report: Report) -> i64
    requires { 5 ≤ length counts.old }
    ensures { (result ≡ done_code report.stop) × (counts.new ≡ sets counts.old 0 (run_counts report)) }
{
    let accepted = report.accepted as u64;
    let consumed = report.consumed as u64;
    let fill = report.fill as u64;
    let quantiser = report.quantiser as u64;
    let stop = report.stop;
    match stop {
        Ok(()) => {
            put(counts, &[accepted, consumed, fill, quantiser, 0]);
            0
        }
        Err(why) => {
            let detail = detail_of(why).cast_unsigned();
            put(counts, &[accepted, consumed, fill, quantiser, detail]);
            refused(why)
        }
    }
}

pub fn tell_replay(counts: &mut [u64], answer: Result<ReplayReport, Refusal>, quantiser: u32) -> i64
    requires { 2 ≤ length counts.old }
    ensures { (result ≡ done_code answer) × (counts.new ≡ sets counts.old 0 (replay_counts answer quantiser)) }
{
    match answer {
        Ok(report) => {
            put(counts, &[report.records as u64, report.quantiser as u64]);
            0
        }
        Err(why) => {
            put(counts, &[0, quantiser as u64]);
            refused(why)
        }
    }
}
