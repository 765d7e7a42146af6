// Parts of statements that hold no other entry to walk: assigns, the head of an if and of a repeat, and what is run fresh or dropped.
ghost use Rattle.std.specs.Prelude.{◌≡◌, ◌+◌, ◌-◌, ◌≤◌, ◌<◌};
ghost use Rattle.table.specs.Kinds.{paper_type};
ghost use Rattle.run.specs.Code.{farthest};
ghost use Rattle.patch.specs.Statement.{Enterable, WalksTo, AssignedAs};
ghost use Rattle.patch.specs.Head.{Headable, HeadTo};
ghost use Rattle.patch.specs.Branch.{ForksTo, Forked, FlipsTo};
ghost use Rattle.patch.specs.Fresh.{Freshened, FreshAs};
ghost use Rattle.patch.specs.Loop.{CountsTo, Endable, EndsTo, Shrinkable, ShrinksTo, Snappable, SnapsTo};
ghost use Rattle.pieces.specs.Change.{Near};

use pieces::change::plus;
use pieces::entry::{Reached, advanced};
use pieces::expression::{operand, shift};
use pieces::snapshot::{patch_snapshot, settled, snapshot_fits, started};
use run::input::in_type;
use run::statement::{Ran, repeat, statement, taken};
use run::words::{put, snapshot};
use table::answer::Refusal;
use table::kind::Type;
use table::mentioned::Mentioned;
use table::script::Script;

// The walk with a variable's change set, behind the whole of its entry.
fn assigned(reached: Reached, v: usize, change: i64, end: usize, length: usize) -> Reached
    requires { (v < 32) × (reached.at + length ≤ farthest) }
    ensures { AssignedAs reached v change end length result }
{
    let mut changes = reached.changes;
    changes.values[v] = change;
    let mut next = reached;
    next.changes = changes;
    next.from = end;
    next.at += length;
    next
}

// An assign's parts: the variable's change becomes the expression's.
pub fn assign(
    script: &Script,
    node: usize,
    old: &[i64],
    end: usize,
    reached: Reached,
    out: &mut [i64],
) -> Result<Reached, Refusal>
    requires { Enterable script.now node old.now end reached 17 }
    ensures { WalksTo script.now node old.now end reached result out.old out.new }
{
    let top = script.node(node);
    let changes = reached.changes;
    let (change, length) = shift(
        &script.checked,
        top.a,
        &changes.values,
        old,
        reached.from,
        end,
        out,
        reached.at,
    )?;
    if reached.from + length != end {
        return Err(Refusal::Broken);
    }
    Ok(assigned(reached, top.tag, change, end, length))
}

// Whether the first word of an if or a repeat is of its type, and its snapshot before stands behind it and takes its changes;
// the new snapshot is laid down.
fn head_fits(
    script: &Script,
    node: usize,
    kind: Type,
    old: &[i64],
    end: usize,
    reached: Reached,
    out: &mut [i64],
) -> bool
    requires { Headable script.now node old.now end reached }
    ensures { HeadTo script.now node (paper_type kind) old.now end reached result out.old out.new }
{
    let from = reached.from;
    if end <= from {
        return false;
    }
    if !in_type(kind, old[from]) {
        return false;
    }
    let changes = reached.changes;
    patch_snapshot(
        script.checked.table,
        script.lists,
        node,
        old,
        from + 1,
        end,
        &changes.values,
        out,
        reached.at + 1,
    )
}

// The head of an if: condition, snapshots, and the condition's record; answers with the change of the condition and that record's
// length.
pub fn fork(
    script: &Script,
    node: usize,
    old: &[i64],
    end: usize,
    reached: Reached,
    out: &mut [i64],
) -> Result<(i64, usize), Refusal>
    requires { Enterable script.now node old.now end reached 19 }
    ensures { ForksTo script.now node old.now end reached result out.old out.new }
{
    if !head_fits(script, node, Type::Truth, old, end, reached, out) {
        return Err(Refusal::Broken);
    }
    let w = script.mentions(node).len();
    if !snapshot_fits(
        script.checked.table,
        script.lists,
        node,
        old,
        reached.from + 1 + w,
        end,
    ) {
        return Err(Refusal::Broken);
    }
    let changes = reached.changes;
    shift(
        &script.checked,
        script.node(node).a,
        &changes.values,
        old,
        reached.from + 1 + 2 * w,
        end,
        out,
        reached.at + 1 + 2 * w,
    )
}

// The walk behind what was run fresh: the node's variables' changes are against a snapshot of the old record.
fn freshened(
    script: &Script,
    node: usize,
    old: &[i64],
    from: usize,
    end: usize,
    ran: Ran,
    reached: Reached,
) -> Reached
    requires { Freshened script.now node old.now from ran reached }
    ensures { FreshAs script.now node old.now from end ran reached result }
{
    let store = ran.store;
    let mut next = reached;
    next.changes = settled(
        script.checked.table,
        script.lists,
        node,
        &store.values,
        old,
        from,
        reached.changes,
    );
    next.left = ran.left;
    next.from = end;
    next.at = ran.at;
    next
}

// An if whose condition is flipped: the other branch is run fresh from the old snapshot plus changes.
pub fn flipped(
    script: &Script,
    node: usize,
    change: i64,
    length: usize,
    old: &[i64],
    end: usize,
    reached: Reached,
    out: &mut [i64],
) -> Result<Reached, Refusal>
    requires { Forked script.now node length old.now end reached × Near change }
    ensures { FlipsTo script.now node change old.now end reached result out.old out.new }
{
    let from = reached.from;
    let at = reached.at;
    let w = script.mentions(node).len();
    let changes = reached.changes;
    let store = started(
        script.checked.table,
        script.lists,
        node,
        old,
        from + 1,
        &changes.values,
    );
    let condition = old[from];
    let top = script.node(node);
    let other = taken(top.b, top.c, 1 - condition);
    let behind = at + 1 + 2 * w + length;
    let ran = statement(script, other, store, reached.left, out, behind)?;
    let after = ran.store;
    snapshot(script.lists, node, &after.values, out, at + 1 + w);
    put(out, at, plus(Type::Truth, condition, change));
    Ok(freshened(script, node, old, from + 1 + w, end, ran, reached))
}

// The head of a repeat: count, snapshot before and the count's record; answers with the new count and that record's length.
pub fn count(
    script: &Script,
    node: usize,
    old: &[i64],
    end: usize,
    reached: Reached,
    out: &mut [i64],
) -> Result<(i64, usize), Refusal>
    requires { Enterable script.now node old.now end reached 20 }
    ensures { CountsTo script.now node old.now end reached result out.old out.new }
{
    if !head_fits(script, node, Type::Number, old, end, reached, out) {
        return Err(Refusal::Broken);
    }
    let w = script.mentions(node).len();
    let changes = reached.changes;
    operand(
        &script.checked,
        script.node(node).a,
        old[reached.from],
        &changes.values,
        old,
        reached.from + 1 + w,
        end,
        out,
        reached.at + 1 + w,
    )
}

// The snapshot after an iteration takes its changes.
pub fn snapped(
    t: &[u8],
    lists: &Mentioned,
    node: usize,
    old: &[i64],
    end: usize,
    reached: Reached,
    out: &mut [i64],
) -> Result<Reached, Refusal>
    requires { Snappable t.now lists.now.lists node old.now end reached }
    ensures { SnapsTo t.now lists.now.lists node old.now end reached result out.old out.new }
{
    let changes = reached.changes;
    if !patch_snapshot(
        t,
        lists,
        node,
        old,
        reached.from,
        end,
        &changes.values,
        out,
        reached.at,
    ) {
        return Err(Refusal::Broken);
    }
    Ok(advanced(reached, lists.of(node).len()))
}

// The iterations that come anew: they run fresh from the last old snapshot plus changes.
fn grown(
    script: &Script,
    node: usize,
    body: usize,
    more: usize,
    last: usize,
    old: &[i64],
    reached: Reached,
    out: &mut [i64],
) -> Result<Reached, Refusal>
    requires { Endable script.now node body last old.now reached.from reached × (0 < more) }
    ensures { EndsTo script.now node body 0 more last old.now reached.from reached result out.old out.new }
{
    let changes = reached.changes;
    let store = started(
        script.checked.table,
        script.lists,
        node,
        old,
        last,
        &changes.values,
    );
    let ran = repeat(
        script,
        node,
        body,
        more,
        store,
        reached.left,
        out,
        reached.at,
    )?;
    Ok(freshened(script, node, old, last, reached.from, ran, reached))
}

// The iterations that fall away: each variable's change is against the last snapshot of the dropped tail.
fn shrunk(
    script: &Script,
    node: usize,
    last: usize,
    old: &[i64],
    end: usize,
    reached: Reached,
) -> Result<Reached, Refusal>
    requires { Shrinkable script.now node last old.now end reached }
    ensures { ShrinksTo script.now node last old.now end reached result }
{
    let from = reached.from;
    let w = script.mentions(node).len();
    if end - from < w {
        return Err(Refusal::Broken);
    }
    let tail = end - w;
    if !snapshot_fits(script.checked.table, script.lists, node, old, tail, end) {
        return Err(Refusal::Broken);
    }
    let changes = reached.changes;
    let store = started(
        script.checked.table,
        script.lists,
        node,
        old,
        last,
        &changes.values,
    );
    let mut next = reached;
    next.changes = settled(
        script.checked.table,
        script.lists,
        node,
        &store.values,
        old,
        tail,
        changes,
    );
    next.from = end;
    Ok(next)
}

// A repeat behind the iterations that stay: the rest come anew, fall away, or there is none.
pub fn ended(
    script: &Script,
    node: usize,
    body: usize,
    was: usize,
    next: usize,
    last: usize,
    old: &[i64],
    end: usize,
    reached: Reached,
    out: &mut [i64],
) -> Result<Reached, Refusal>
    requires { Endable script.now node body last old.now end reached }
    ensures { EndsTo script.now node body (was - next) (next - was) last old.now end reached result out.old out.new }
{
    if next < was {
        return shrunk(script, node, last, old, end, reached);
    }
    if reached.from != end {
        return Err(Refusal::Broken);
    }
    if was < next {
        return grown(script, node, body, next - was, last, old, reached, out);
    }
    Ok(reached)
}
