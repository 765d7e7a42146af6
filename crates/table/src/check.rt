// The check of a table: refusals 1 to 5, each over the whole table before the next.
ghost use Rattle.std.specs.Prelude.{◌≤◌, ◌↔◌, slice_index, EachIndex, IsTrue};
ghost use Rattle.rules.specs.Call.{IsCheck};
ghost use Rattle.table.specs.Paper.{number_of, outcome_of};
ghost use Rattle.table.specs.Told.{tree_of, IsDepth};

use crate::answer::Refusal;
use crate::header::Extent;
use crate::layout::{MOST_DEPTH, MOST_NODES};
use crate::node::{Part, Sort, height_as, part_of};
use crate::uses::used_once;

// Whether each variable's type is 0 or 1: refusal 2 otherwise.
fn types_fit(types: &[u8]) -> bool
    ensures { IsTrue result ↔ EachIndex types.now (λ k. slice_index types.now k ≤ 1) }
{
    types.iter().all(|&byte| byte <= 1)
}

// The depth of the table's tree, one more than the most for any above; refusal 3 where the nodes make no statement.
fn tree_depth(table: &Extent) -> Result<u8, Refusal>
    ensures { IsDepth (tree_of table.now.bytes.now) result }
{
    let mut parts = [None; MOST_NODES];
    for i in 0..table.nodes {
        let node = table.node(i)?;
        parts[i] = Some(part_of(table, node, &parts)?);
    }
    height_as(Sort::Statement, parts[table.nodes - 1])
}

// Accepted, or refused for the first of the reasons 1 to 5 that holds of the whole table.
pub fn check(t: &[u8]) -> Result<(), Refusal>
    ensures { IsCheck t.now (number_of (outcome_of result)) }
{
    let table = Extent::of(t)?;
    if !types_fit(table.types()) {
        return Err(Refusal::Types);
    }
    let depth = tree_depth(&table)?;
    if !used_once(&table) {
        return Err(Refusal::Use);
    }
    if MOST_DEPTH < depth {
        return Err(Refusal::Depth);
    }
    Ok(())
}
