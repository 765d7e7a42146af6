// The public patch: the tests in turn, the root's visit, the header in front of its entry, and zeros to the end; the room decides last.
ghost use Rattle.std.specs.Prelude.{◌≡◌, length};
ghost use Rattle.rules.specs.Call.{IsPatch};
ghost use Rattle.table.specs.Paper.{answer_of};
ghost use Rattle.patch.specs.Call.{Tested, Startable, PatchAnswers, Rooted, RootsTo, Finishable, FinishesTo, Completable, CompletesTo};

use crate::header::{Header, legal, read_header, sums};
use crate::statement::visit;
use pieces::entry::Reached;
use run::call::refuse;
use run::input::{fits, padded};
use run::words::{clear, lay_slice, put};
use table::access::pair;
use table::answer::{Answer, Changes, Outcome, Refusal, Store};
use table::check::check;
use table::mentioned::Mentioned;
use table::script::Script;

// The tests before a patch: the table's 1 to 5, the header's 12, then 11.
fn tested(t: &[u8], old: &[i64], changes: &[i64]) -> Result<Header, Refusal>
    ensures { Tested t.now old.now changes.now result }
{
    check(t)?;
    let head = read_header(t, old)?;
    if !legal(t, &old[3..3 + pair(t, 4)], changes) {
        return Err(Refusal::Change);
    }
    Ok(head)
}

// The record's header in front of the root's entry, and zeros behind it.
fn complete(
    v: usize,
    limit: usize,
    inputs: Store,
    outputs: Store,
    reached: Reached,
    out: &mut [i64],
) -> Answer
    requires { Completable v limit inputs outputs reached out.old }
    ensures { CompletesTo v limit inputs outputs reached out.old result out.new }
{
    let steps = limit - reached.left;
    let length = reached.at;
    put(out, 0, length as i64);
    put(out, 1, limit as i64);
    put(out, 2, steps as i64);
    let behind = lay_slice(out, 3, &inputs.values[..v]);
    lay_slice(out, behind, &outputs.values[..v]);
    clear(out, length);
    let moved = padded(&reached.changes.values[..v]);
    let values = outputs.values;
    let changes = moved.values;
    Answer {
        outcome: Outcome::Accepted,
        steps,
        walked: reached.walked,
        reused: reached.reused,
        fresh: steps - reached.walked - reached.reused,
        length,
        values,
        changes,
    }
}

// A patch whose walk has come to its end: the outputs, and what they and the room make of it.
fn finish(
    t: &[u8],
    old: &[i64],
    limit: usize,
    changes: Store,
    reached: Reached,
    out: &mut [i64],
) -> Result<Answer, Refusal>
    requires { Finishable t.now old.now limit changes reached out.old }
    ensures { FinishesTo t.now old.now limit changes reached out.old result out.new }
{
    let v = pair(t, 4);
    let inputs = sums(t, &old[3..3 + v], &changes.values);
    let outputs = sums(t, &old[3 + v..3 + 2 * v], &reached.changes.values);
    if !fits(t, &outputs.values[..v]) {
        return Err(Refusal::Broken);
    }
    if out.len() < reached.at {
        return Err(Refusal::Room);
    }
    Ok(complete(v, limit, inputs, outputs, reached, out))
}

// The visit of the root's entry, which ends at L.
fn rooted(
    t: &[u8],
    old: &[i64],
    head: Header,
    changes: Store,
    out: &mut [i64],
) -> Result<Reached, Refusal>
    requires { Rooted t.now old.now head changes }
    ensures { RootsTo t.now old.now head changes result out.old out.new }
{
    let mut lists = Mentioned::blank();
    lists.fill(t);
    let script = Script::new(t, &lists);
    let place = 3 + 2 * script.checked.variables();
    let values = changes.values;
    let start = Reached {
        changes: Changes { values },
        left: head.limit,
        walked: 0,
        reused: 0,
        from: place,
        at: place,
    };
    visit(
        &script,
        script.checked.root(),
        true,
        old,
        head.length,
        start,
        out,
    )
}

// A patch whose tests are passed: the root's visit, and what is made of its end.
fn start(
    t: &[u8],
    old: &[i64],
    head: Header,
    changes: &[i64],
    out: &mut [i64],
) -> Result<Answer, Refusal>
    requires { Startable t.now old.now head changes.now }
    ensures { PatchAnswers t.now old.now changes.now (length out.old) result out.new }
{
    let whole = padded(changes);
    let reached = rooted(t, old, head, whole, out)?;
    finish(t, old, head.limit, whole, reached, out)
}

// The patch, or the reason why it is refused.
fn attempt(t: &[u8], old: &[i64], changes: &[i64], out: &mut [i64]) -> Result<Answer, Refusal>
    ensures { PatchAnswers t.now old.now changes.now (length out.old) result out.new }
{
    let head = tested(t, old, changes)?;
    start(t, old, head, changes, out)
}

// The patch of an old record of a table by these changes: the answer, and the new record in the lent buffer.
pub fn patch(t: &[u8], old: &[i64], changes: &[i64], out: &mut [i64]) -> Answer
    ensures { IsPatch t.now old.now changes.now (answer_of result) out.new }
{
    match attempt(t, old, changes, out) {
        Ok(answer) => answer,
        Err(reason) => refuse(out, reason),
    }
}
