// Snapshots in the old record: the values of a node's variables, by rising number, from a place on. Bytes and lists are taken as they are:
// a script's type says more of them than is asked here, which is one row. A test that fails is told as false, and its caller names the refusal.
ghost use Rattle.std.specs.Prelude.{◌≡◌, ◌+◌, ◌<◌, ◌≤◌, length};
ghost use Rattle.rules.specs.Value.{unchanged};
ghost use Rattle.table.specs.Lists.{Row, list_at};
ghost use Rattle.run.specs.Code.{farthest};
ghost use Rattle.pieces.specs.Change.{AllNear};
ghost use Rattle.pieces.specs.Snapshot.{Snapped, Standing, FitsTo, MovesTo, PatchesTo, started_from, settled_by};

use crate::change::{minus, moved, plus};
use run::input::in_type;
use run::words::put;
use table::access::type_of;
use table::answer::{Changes, Store};
use table::mentioned::Mentioned;

// Whether all of a node's variables have change 0.
pub fn unchanged(lists: &Mentioned, node: usize, changes: &[i64; 32]) -> bool
    requires { Row 32 lists.now.lists node }
    ensures { result ≡ unchanged (list_at lists.now.lists node) changes.now }
{
    for &v in lists.of(node) {
        if changes[usize::from(v)] != 0 {
            return false;
        }
    }
    true
}

// Whether a snapshot of a node stands from a place on, before the end, each word in its type.
pub fn snapshot_fits(
    t: &[u8],
    lists: &Mentioned,
    node: usize,
    old: &[i64],
    from: usize,
    end: usize,
) -> bool
    requires { Snapped t.now lists.now.lists node old.now from end }
    ensures { FitsTo t.now lists.now.lists node old.now from end result }
{
    let variables = lists.of(node);
    if end < from + variables.len() {
        return false;
    }
    for (i, &v) in variables.iter().enumerate() {
        if !in_type(type_of(t, usize::from(v)), old[from + i]) {
            return false;
        }
    }
    true
}

// The snapshot plus the changes, laid down from a place on; false where a word leaves its type.
pub fn move_snapshot(
    t: &[u8],
    lists: &Mentioned,
    node: usize,
    old: &[i64],
    from: usize,
    changes: &[i64; 32],
    out: &mut [i64],
    at: usize,
) -> bool
    requires { Standing t.now lists.now.lists node old.now from × (AllNear changes.now × (at ≤ farthest)) }
    ensures { MovesTo t.now lists.now.lists node old.now from changes.now result out.old at out.new }
{
    for (i, &v) in lists.of(node).iter().enumerate() {
        let v = usize::from(v);
        let Some(new) = moved(type_of(t, v), old[from + i], changes[v]) else {
            return false;
        };
        put(out, at + i, new);
    }
    true
}

// Whether a snapshot of a node stands from a place on and takes its changes; the new one is laid down.
pub fn patch_snapshot(
    t: &[u8],
    lists: &Mentioned,
    node: usize,
    old: &[i64],
    from: usize,
    end: usize,
    changes: &[i64; 32],
    out: &mut [i64],
    at: usize,
) -> bool
    requires { Snapped t.now lists.now.lists node old.now from end × (AllNear changes.now × (at ≤ farthest)) }
    ensures { PatchesTo t.now lists.now.lists node old.now from end changes.now result out.old at out.new }
{
    snapshot_fits(t, lists, node, old, from, end)
        && move_snapshot(t, lists, node, old, from, changes, out, at)
}

// The store that a snapshot plus the changes makes: zero but for the node's variables.
pub fn started(
    t: &[u8],
    lists: &Mentioned,
    node: usize,
    old: &[i64],
    from: usize,
    changes: &[i64; 32],
) -> Store
    requires { Standing t.now lists.now.lists node old.now from × AllNear changes.now }
    ensures { result.values ≡ started_from t.now lists.now.lists node old.now from changes.now }
{
    let mut values = [0i64; 32];
    for (i, &v) in lists.of(node).iter().enumerate() {
        let v = usize::from(v);
        values[v] = plus(type_of(t, v), old[from + i], changes[v]);
    }
    Store { values }
}

// The changes with each of the node's variables' set to its new value minus its word in a snapshot.
pub fn settled(
    t: &[u8],
    lists: &Mentioned,
    node: usize,
    values: &[i64; 32],
    old: &[i64],
    from: usize,
    changes: Changes,
) -> Changes
    requires { Standing t.now lists.now.lists node old.now from × AllNear values.now }
    ensures { result.values ≡ settled_by t.now lists.now.lists node values.now old.now from changes.values }
{
    let mut next = changes;
    for (i, &v) in lists.of(node).iter().enumerate() {
        let v = usize::from(v);
        next.values[v] = minus(type_of(t, v), values[v], old[from + i]);
    }
    next
}
