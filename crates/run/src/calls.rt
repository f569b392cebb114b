// The calls of a run, read from their bytes: three numbers each.
ghost use Rattle.std.specs.Prelude.{◌≡◌, drop};
ghost use Rattle.refusal.specs.Answered.{answered};
ghost use Rattle.run.specs.Calls.{call_in, calls};
ghost use Rattle.run.specs.InnerCalls.{calls_answer};

use number::read_number;
use refusal::Refusal;
use state::Call;

// The call at a place, which may lie anywhere, also past the end.
pub fn read_call(list: &[u8], at: usize) -> Result<(Call, usize), Refusal>
    ensures { result ≡ answered at (call_in (drop at list.now)) }
{
    let (column, p) = read_number(list, at)?;
    let (row, q) = read_number(list, p)?;
    let (mode, next) = read_number(list, q)?;
    Ok((Call { column, row, mode }, next))
}

// The number of calls: a list is read to its end before anything else is asked.
pub fn check_calls(list: &[u8]) -> Result<usize, Refusal>
    ensures { result ≡ calls_answer (calls list.now) }
{
    let mut at = 0;
    let mut count: usize = 0;
    // a call says where the next one begins: no range counts them
    while at < list.len() {
        let (_, next) = read_call(list, at)?;
        at = next;
        count += 1;
    }
    Ok(count)
}
