// How often each node is the child of a place: refusal 4 where a node but the root is not used exactly once.
ghost use Rattle.std.specs.Prelude.{◌≡◌, ◌-◌, ◌↔◌, slice_index, EachIndex, IsTrue};
ghost use Rattle.rules.specs.Outcome.{use_wrong};
ghost use Rattle.rules.specs.Table.{nodes_of, children, check_uses};
ghost use Rattle.table.specs.Kinds.{paper_kind};
ghost use Rattle.table.specs.Sorts.{node_of, form, child_in, children_in};
ghost use Rattle.table.specs.Told.{Tells};
ghost use Rattle.table.specs.Uses.{Counted};

use crate::header::Extent;
use crate::layout::MOST_NODES;
use crate::node::{Field, Node, asked_of};

// Counts a field's child, if the field has one.
fn count_field(rule: Field, x: usize, counts: &mut [u8; MOST_NODES])
    ensures { Counted counts.old (child_in rule x) counts.new }
{
    match rule {
        Field::Free | Field::Zero => {}
        Field::Child(_) => {
            if x < MOST_NODES {
                counts[x] = counts[x].saturating_add(1);
            }
        }
    }
}

// Counts a node's children.
fn count_node(x: Node, counts: &mut [u8; MOST_NODES])
    ensures { Counted counts.old (children_in (form (paper_kind x.kind)) (node_of x)) counts.new }
{
    let form = asked_of(x.kind);
    count_field(form.a, x.a, counts);
    count_field(form.b, x.b, counts);
    count_field(form.c, x.c, counts);
}

// Whether each count is 1.
fn all_once(counts: &[u8]) -> bool
    ensures { IsTrue result ↔ EachIndex counts.now (λ k. slice_index counts.now k ≡ 1) }
{
    counts.iter().all(|&count| count == 1)
}

// Whether every node but the root is used exactly once: refusal 4 otherwise.
pub fn used_once(table: &Extent) -> bool
    ensures { Tells use_wrong (check_uses (table.now.nodes - 1) (children (nodes_of table.now.bytes.now))) result }
{
    let mut counts = [0u8; MOST_NODES];
    for i in 0..table.nodes {
        if let Ok(x) = table.node(i) {
            count_node(x, &mut counts);
        }
    }
    all_once(&counts[..table.nodes - 1])
}
