// Statements: the walk through an entry of the old record, with the new entry laid down from a place on.
ghost use Rattle.std.specs.Prelude.{◌≡◌, ◌≤◌};
ghost use Rattle.patch.specs.Statement.{Visitable, VisitsTo, Payable, PaysTo, Inner, Enterable, WalksTo};
ghost use Rattle.patch.specs.Branch.{Forked, KeepsTo};
ghost use Rattle.patch.specs.Loop.{Counted, IteratesTo, Turnable, TurnsTo, TurnTo, last_of};

use crate::parts::{assign, count, ended, flipped, fork, snapped};
use pieces::entry::{Met, Reached, advanced, meet, skip, stepped};
use pieces::snapshot::{move_snapshot, unchanged};
use run::statement::{open, taken, times};
use run::words::put;
use table::answer::Refusal;
use table::kind::Kind;
use table::script::Script;

// The visit of the entry of the statement at a node: skipped where nothing that it mentions has changed, else walked.
#[cycle(visits)]
pub fn visit(
    script: &Script,
    node: usize,
    last: bool,
    old: &[i64],
    end: usize,
    reached: Reached,
    out: &mut [i64],
) -> Result<Reached, Refusal>
    requires { Visitable script.now node old.now end reached }
    ensures { VisitsTo script.now node last old.now end reached result out.old out.new }
{
    let met = meet(node, last, old, reached.from, end)?;
    let changes = reached.changes;
    if unchanged(script.lists, node, &changes.values) {
        return skip(old, met, reached, out);
    }
    pay(script, node, old, met.stop, reached, out)
}

// A walked entry: a step, its parts, and then the entry's opening words.
#[cycle(visits)]
fn pay(
    script: &Script,
    node: usize,
    old: &[i64],
    stop: usize,
    reached: Reached,
    out: &mut [i64],
) -> Result<Reached, Refusal>
    requires { Payable script.now node old.now stop reached }
    ensures { PaysTo script.now node old.now stop reached result out.old out.new }
{
    let left = reached.left;
    let at = reached.at;
    if left == 0 {
        return Err(Refusal::Fuel);
    }
    let gone = parts(script, node, old, stop, stepped(reached), out)?;
    open(out, at, node, gone.at - at, left - gone.left);
    Ok(gone)
}

// A walked entry's parts, by the statement's kind.
#[cycle(visits)]
fn parts(
    script: &Script,
    node: usize,
    old: &[i64],
    end: usize,
    reached: Reached,
    out: &mut [i64],
) -> Result<Reached, Refusal>
    requires { Inner script.now node old.now end reached }
    ensures { WalksTo script.now node old.now end reached result out.old out.new }
{
    match script.node(node).kind {
        Kind::Assign => assign(script, node, old, end, reached, out),
        Kind::Sequence => sequence(script, node, old, end, reached, out),
        Kind::If => branch(script, node, old, end, reached, out),
        Kind::Repeat => looped(script, node, old, end, reached, out),
        _ => unreachable!(),
    }
}

// A sequence's parts: both entries in turn.
#[cycle(visits)]
fn sequence(
    script: &Script,
    node: usize,
    old: &[i64],
    end: usize,
    reached: Reached,
    out: &mut [i64],
) -> Result<Reached, Refusal>
    requires { Enterable script.now node old.now end reached 18 }
    ensures { WalksTo script.now node old.now end reached result out.old out.new }
{
    let top = script.node(node);
    let first = visit(script, top.a, false, old, end, reached, out)?;
    visit(script, top.b, true, old, end, first, out)
}

// An if's parts: the head, and then the branch, kept or flipped.
#[cycle(visits)]
fn branch(
    script: &Script,
    node: usize,
    old: &[i64],
    end: usize,
    reached: Reached,
    out: &mut [i64],
) -> Result<Reached, Refusal>
    requires { Enterable script.now node old.now end reached 19 }
    ensures { WalksTo script.now node old.now end reached result out.old out.new }
{
    let (change, length) = fork(script, node, old, end, reached, out)?;
    if change == 0 {
        return kept(script, node, length, old, end, reached, out);
    }
    flipped(script, node, change, length, old, end, reached, out)
}

// An if whose condition is kept: the branch is patched, and the snapshot after takes the changes behind it.
#[cycle(visits)]
fn kept(
    script: &Script,
    node: usize,
    length: usize,
    old: &[i64],
    end: usize,
    reached: Reached,
    out: &mut [i64],
) -> Result<Reached, Refusal>
    requires { Forked script.now node length old.now end reached }
    ensures { KeepsTo script.now node old.now end reached result out.old out.new }
{
    let from = reached.from;
    let at = reached.at;
    let condition = old[from];
    let w = script.mentions(node).len();
    let top = script.node(node);
    let same = taken(top.b, top.c, condition);
    let behind = advanced(reached, 1 + 2 * w + length);
    let gone = visit(script, same, true, old, end, behind, out)?;
    let changes = gone.changes;
    if !move_snapshot(
        script.checked.table,
        script.lists,
        node,
        old,
        from + 1 + w,
        &changes.values,
        out,
        at + 1 + w,
    ) {
        return Err(Refusal::Broken);
    }
    put(out, at, condition);
    Ok(gone)
}

// A repeat's parts: the head, and then the iterations.
#[cycle(visits)]
fn looped(
    script: &Script,
    node: usize,
    old: &[i64],
    end: usize,
    reached: Reached,
    out: &mut [i64],
) -> Result<Reached, Refusal>
    requires { Enterable script.now node old.now end reached 20 }
    ensures { WalksTo script.now node old.now end reached result out.old out.new }
{
    let (new, length) = count(script, node, old, end, reached, out)?;
    iterate(script, node, new, length, old, end, reached, out)
}

// Where the last old snapshot stands behind so many iterations: the one before where there are none.
fn last_of(count: usize, first: usize, behind: usize, w: usize) -> usize
    requires { (count ≡ 0 → ⊥) → w ≤ behind }
    ensures { result ≡ last_of count first behind w }
{
    if count == 0 {
        return first;
    }
    behind - w
}

// A repeat's iterations: those that stay are patched, and then the rest.
#[cycle(visits)]
fn iterate(
    script: &Script,
    node: usize,
    new: i64,
    length: usize,
    old: &[i64],
    end: usize,
    reached: Reached,
    out: &mut [i64],
) -> Result<Reached, Refusal>
    requires { Counted script.now node new length old.now end reached }
    ensures { IteratesTo script.now node new old.now end reached result out.old out.new }
{
    let from = reached.from;
    let at = reached.at;
    let body = script.node(node).b;
    let w = script.mentions(node).len();
    let was = times(old[from]);
    let next = times(new);
    let stay = was.min(next);
    let behind = advanced(reached, 1 + w + length);
    let gone = turns(script, node, body, stay, old, end, behind, out)?;
    put(out, at, new);
    let last = last_of(stay, from + 1, gone.from, w);
    ended(script, node, body, was, next, last, old, end, gone, out)
}

// So many iterations that stay: each visits the body, and the snapshot after it takes its changes.
#[cycle(visits)]
fn turns(
    script: &Script,
    node: usize,
    body: usize,
    count: usize,
    old: &[i64],
    end: usize,
    reached: Reached,
    out: &mut [i64],
) -> Result<Reached, Refusal>
    requires { Turnable script.now node body old.now end reached }
    ensures { TurnsTo script.now node body count old.now end reached result out.old out.new }
{
    let mut so_far = reached;
    for _ in 0..count {
        so_far = turn(script, node, body, old, end, so_far, out)?;
    }
    Ok(so_far)
}

// An iteration that stays.
#[cycle(visits)]
fn turn(
    script: &Script,
    node: usize,
    body: usize,
    old: &[i64],
    end: usize,
    reached: Reached,
    out: &mut [i64],
) -> Result<Reached, Refusal>
    requires { Turnable script.now node body old.now end reached }
    ensures { TurnTo script.now node body old.now end reached result out.old out.new }
{
    let gone = visit(script, body, false, old, end, reached, out)?;
    snapped(
        script.checked.table,
        script.lists,
        node,
        old,
        end,
        gone,
        out,
    )
}
