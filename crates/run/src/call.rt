// The public run: the tests in turn, the root's run, the header in front of its entry, and zeros to the end; the room decides last.
ghost use Rattle.std.specs.Prelude.{◌≡◌, length, pos};
ghost use Rattle.rules.specs.Outcome.{refused};
ghost use Rattle.rules.specs.Call.{IsRun};
ghost use Rattle.table.specs.Paper.{answer_of, reason_of};
ghost use Rattle.run.specs.Call.{Answers, RunAnswers, Tested, Startable, Completable, CompletesTo};

use crate::input::{fits, padded, read_limit};
use crate::statement::{Ran, statement};
use crate::words::{clear, lay_slice, put};
use table::answer::{Answer, Outcome, Refusal};
use table::check::check;
use table::mentioned::Mentioned;
use table::script::Script;

// The answer of a refused call: the whole buffer is zero.
pub fn refuse(out: &mut [i64], reason: Refusal) -> Answer
    ensures { Answers (length out.old) (refused (reason_of reason)) result out.new }
{
    clear(out, 0);
    Answer {
        outcome: Outcome::Refused(reason),
        steps: 0,
        walked: 0,
        reused: 0,
        fresh: 0,
        length: 0,
        values: [0i64; 32],
        changes: [0i64; 32],
    }
}

// The tests before a run, 1 to 7 in turn: the limit as a count.
fn tested(t: &[u8], inputs: &[i64], limit: i64) -> Result<usize, Refusal>
    ensures { Tested t.now inputs.now limit result }
{
    check(t)?;
    if !fits(t, inputs) {
        return Err(Refusal::Store);
    }
    read_limit(limit).ok_or(Refusal::Limit)
}

// The record's header in front of the root's entry, and zeros behind it.
fn complete(inputs: &[i64], limit: usize, ran: Ran, out: &mut [i64]) -> Answer
    requires { Completable inputs.now limit ran out.old }
    ensures { CompletesTo inputs.now limit ran out.old result out.new }
{
    let steps = limit - ran.left;
    let outputs = padded(&ran.store.values[..inputs.len()]);
    put(out, 0, ran.at as i64);
    put(out, 1, limit as i64);
    put(out, 2, steps as i64);
    let behind = lay_slice(out, 3, inputs);
    lay_slice(out, behind, &ran.store.values[..inputs.len()]);
    clear(out, ran.at);
    let values = outputs.values;
    Answer {
        outcome: Outcome::Accepted,
        steps,
        walked: 0,
        reused: 0,
        fresh: steps,
        length: ran.at,
        values,
        changes: [0i64; 32],
    }
}

// A run whose tests are passed: the root's run from the inputs, and what the room makes of it.
fn start(t: &[u8], inputs: &[i64], limit: usize, out: &mut [i64]) -> Result<Answer, Refusal>
    requires { Startable t.now inputs.now limit }
    ensures { RunAnswers t.now inputs.now (pos limit) (length out.old) result out.new }
{
    let mut lists = Mentioned::blank();
    lists.fill(t);
    let script = Script::new(t, &lists);
    let at = 3 + 2 * inputs.len();
    let ran = statement(
        &script,
        script.checked.root(),
        padded(inputs),
        limit,
        out,
        at,
    )?;
    if out.len() < ran.at {
        return Err(Refusal::Room);
    }
    Ok(complete(inputs, limit, ran, out))
}

// The run, or the reason why it is refused.
fn attempt(t: &[u8], inputs: &[i64], limit: i64, out: &mut [i64]) -> Result<Answer, Refusal>
    ensures { RunAnswers t.now inputs.now limit (length out.old) result out.new }
{
    let most = tested(t, inputs, limit)?;
    start(t, inputs, most, out)
}

// The run of a table on these inputs, with this limit of steps: the answer, and the record in the lent buffer.
pub fn run(t: &[u8], inputs: &[i64], limit: i64, out: &mut [i64]) -> Answer
    ensures { IsRun t.now inputs.now limit (answer_of result) out.new }
{
    match attempt(t, inputs, limit, out) {
        Ok(answer) => answer,
        Err(reason) => refuse(out, reason),
    }
}
