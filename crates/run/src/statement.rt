// Statements: the store that a run ends with, with the entry laid down from a place on.
ghost use Rattle.std.specs.Prelude.{◌≡◌, ◌+◌, ◌≤◌};
ghost use Rattle.rules.specs.Outcome.{choose};
ghost use Rattle.rules.specs.Run;
ghost use Rattle.rules.specs.Run.{holds};
ghost use Rattle.run.specs.Code.{farthest};
ghost use Rattle.run.specs.Statement.{Runnable, Inner, Enterable, Takeable, Repeatable, RunsTo, PartsTo, TakesTo, RepeatsTo, Opened};

use crate::expression::evaluate;
use crate::words::{put, snapshot};
use table::answer::{Refusal, Store};
use table::kind::Kind;
use table::script::Script;

// Where an accepted run of a statement has come to: the store, the steps that are left, and the place behind its words. The store is
// taken out before it is lent: so the compiler copies the array alone, and keeps the numbers in registers.
#[derive(Clone, Copy, Drop)]
pub struct Ran {
    pub store: Store,
    pub left: usize,
    pub at: usize,
}

// Lays down an entry's three opening words.
pub fn open(out: &mut [i64], at: usize, node: usize, size: usize, steps: usize)
    requires { (at + 2 ≤ farthest) × ((node ≤ farthest) × ((size ≤ farthest) × (steps ≤ farthest))) }
    ensures { Opened out.old at node size steps out.new }
{
    put(out, at, node as i64);
    put(out, at + 1, size as i64);
    put(out, at + 2, steps as i64);
}

// How many iterations a count makes: none below 1.
pub fn times(count: i64) -> usize
    ensures { result ≡ Run.times count }
{
    if count < 1 {
        return 0;
    }
    count as usize
}

// The child of an if that a condition takes: of these two.
pub fn taken(yes: usize, no: usize, condition: i64) -> usize
    ensures { result ≡ choose (holds condition) yes no }
{
    if condition == 0 {
        return no;
    }
    yes
}

// The run of the statement at a node: a step, its parts, and then the entry's opening words.
#[cycle(statements)]
pub fn statement(
    script: &Script,
    node: usize,
    store: Store,
    left: usize,
    out: &mut [i64],
    at: usize,
) -> Result<Ran, Refusal>
    requires { Runnable script.now node store.values left at }
    ensures { RunsTo script.now node store.values left result out.old at out.new }
{
    if left == 0 {
        return Err(Refusal::Fuel);
    }
    let ran = parts(script, node, store, left - 1, out, at + 3)?;
    open(out, at, node, ran.at - at, left - ran.left);
    Ok(ran)
}

// A statement's parts, by its kind.
#[cycle(statements)]
fn parts(
    script: &Script,
    node: usize,
    store: Store,
    left: usize,
    out: &mut [i64],
    at: usize,
) -> Result<Ran, Refusal>
    requires { Inner script.now node store.values left at }
    ensures { PartsTo script.now node store.values left result out.old at out.new }
{
    match script.node(node).kind {
        Kind::Skip => Ok(Ran { store, left, at }),
        Kind::Assign => assign(script, node, store, left, out, at),
        Kind::Sequence => sequence(script, node, store, left, out, at),
        Kind::If => branch(script, node, store, left, out, at),
        Kind::Repeat => looped(script, node, store, left, out, at),
        _ => unreachable!(),
    }
}

// An assign's parts: the expression's record; the variable gets its value.
fn assign(
    script: &Script,
    node: usize,
    store: Store,
    left: usize,
    out: &mut [i64],
    at: usize,
) -> Result<Ran, Refusal>
    requires { Enterable script.now node store.values left at 17 }
    ensures { PartsTo script.now node store.values left result out.old at out.new }
{
    let top = script.node(node);
    let (value, end) = evaluate(&script.checked, top.a, &store.values, out, at)?;
    let mut next = store;
    next.values[top.tag] = value;
    Ok(Ran {
        store: next,
        left,
        at: end,
    })
}

// A sequence's parts: both entries, one after the other.
#[cycle(statements)]
fn sequence(
    script: &Script,
    node: usize,
    store: Store,
    left: usize,
    out: &mut [i64],
    at: usize,
) -> Result<Ran, Refusal>
    requires { Enterable script.now node store.values left at 18 }
    ensures { PartsTo script.now node store.values left result out.old at out.new }
{
    let top = script.node(node);
    let first = statement(script, top.a, store, left, out, at)?;
    statement(script, top.b, first.store, first.left, out, first.at)
}

// An if's parts: condition, snapshot before and after, the condition's record, and the entry of the branch taken.
#[cycle(statements)]
fn branch(
    script: &Script,
    node: usize,
    store: Store,
    left: usize,
    out: &mut [i64],
    at: usize,
) -> Result<Ran, Refusal>
    requires { Enterable script.now node store.values left at 19 }
    ensures { PartsTo script.now node store.values left result out.old at out.new }
{
    let top = script.node(node);
    let after = snapshot(script.lists, node, &store.values, out, at + 1);
    let width = after - (at + 1);
    let (condition, behind) = evaluate(&script.checked, top.a, &store.values, out, after + width)?;
    put(out, at, condition);
    take(script, node, condition, store, left, out, after, behind)
}

// The branch that the condition takes, and the snapshot after it.
#[cycle(statements)]
fn take(
    script: &Script,
    node: usize,
    condition: i64,
    store: Store,
    left: usize,
    out: &mut [i64],
    after: usize,
    at: usize,
) -> Result<Ran, Refusal>
    requires { Takeable script.now node store.values left after at }
    ensures { TakesTo script.now node condition store.values left result out.old after at out.new }
{
    let top = script.node(node);
    let branch = taken(top.b, top.c, condition);
    let ran = statement(script, branch, store, left, out, at)?;
    let ended = ran.store;
    snapshot(script.lists, node, &ended.values, out, after);
    Ok(ran)
}

// A repeat's parts: count, snapshot before, the count's record, and then the iterations.
#[cycle(statements)]
fn looped(
    script: &Script,
    node: usize,
    store: Store,
    left: usize,
    out: &mut [i64],
    at: usize,
) -> Result<Ran, Refusal>
    requires { Enterable script.now node store.values left at 20 }
    ensures { PartsTo script.now node store.values left result out.old at out.new }
{
    let top = script.node(node);
    let behind = snapshot(script.lists, node, &store.values, out, at + 1);
    let (count, end) = evaluate(&script.checked, top.a, &store.values, out, behind)?;
    put(out, at, count);
    repeat(script, node, top.b, times(count), store, left, out, end)
}

// So many iterations: each runs the body and lays down its entry and a snapshot after it.
#[cycle(statements)]
pub fn repeat(
    script: &Script,
    node: usize,
    body: usize,
    count: usize,
    store: Store,
    left: usize,
    out: &mut [i64],
    at: usize,
) -> Result<Ran, Refusal>
    requires { Repeatable script.now node body store.values left at }
    ensures { RepeatsTo script.now node body count store.values left result out.old at out.new }
{
    let mut so_far = Ran { store, left, at };
    for _ in 0..count {
        so_far = statement(script, body, so_far.store, so_far.left, out, so_far.at)?;
        let ended = so_far.store;
        so_far.at = snapshot(script.lists, node, &ended.values, out, so_far.at);
    }
    Ok(so_far)
}
