// The variables that each node mentions, computed once for all nodes in rising node order, so that a snapshot or a skip test
// goes over a short list.
ghost use Rattle.std.specs.Prelude.{◌≡◌, ◌+◌, ◌*◌, ◌<◌, ◌≤◌, get_or, take};
ghost use Rattle.rules.proofs.Laws.Rising.{rising, flagged, flagged_by};
ghost use Rattle.rules.proofs.Laws.Variables.{vars_at, names, places};
ghost use Rattle.table.specs.Accepted.{AcceptedTable};
ghost use Rattle.table.specs.Kinds.{kind_number_of};
ghost use Rattle.table.specs.Lists.{list_at, Row, Lists};
ghost use Rattle.table.specs.Rows.{laid};
ghost use Rattle.table.specs.Listing.{Children, Ready};

use crate::access::pair;
use crate::kind::Kind;
use crate::layout::{HEADER_LENGTH, NODE_LENGTH};
use crate::node::{Node, read_known};

// A row has a byte for the count, and one for each of 32 variables.
const ROW_LENGTH: usize = 33;

// For each node n: at 33 * n how many variables it mentions, and behind it their numbers, rising. One array of fixed size, since the
// library takes no memory.
#[derive(Clone, Copy, Drop)]
pub struct Mentioned {
    pub lists: [u8; 16896],
}

impl Mentioned {
    // The variables that node n mentions, rising.
    pub fn of(&self, n: usize) -> &[u8]
        requires { Row 32 self.now.lists n }
        ensures { result.now ≡ list_at self.now.lists n }
    {
        let row = ROW_LENGTH * n;
        let count = usize::from(self.lists[row]);
        &self.lists[row + 1..row + 1 + count]
    }

    // No lists yet: a place to fill.
    pub fn blank() -> Mentioned {
        Mentioned { lists: [0; 16896] }
    }

    // Makes these the lists of all nodes of an accepted table, where they stand: what is filled is not copied.
    pub fn fill(&mut self, t: &[u8])
        requires { AcceptedTable t.now }
        ensures { Lists t.now self.new.lists }
    {
        let variables = pair(t, 4);
        for n in 0..pair(t, 6) {
            let flags = flags_of(t, self, n);
            self.write(n, flags, variables);
        }
    }

    // Writes the flagged variables below a bound, rising, as the list of node n.
    fn write(&mut self, n: usize, flags: [bool; 32], bound: usize)
        requires { (n < 512) × (bound ≤ 32) }
        ensures { self.new.lists ≡ laid self.old.lists n (rising 0 (take bound flags)) }
    {
        let row = ROW_LENGTH * n;
        let mut count = 0;
        for v in 0..bound {
            if flags[v] {
                self.lists[row + 1 + count] = v as u8;
                count += 1;
            }
        }
        self.lists[row] = count as u8;
    }
}

// How many of its fields a node of this kind uses as children.
fn places_of(kind: Kind) -> usize
    ensures { result ≡ get_or places (kind_number_of kind) 0 }
{
    match kind {
        Kind::NumberConstant | Kind::TruthConstant | Kind::Variable | Kind::Skip => 0,
        Kind::Assign => 1,
        Kind::Operator(_) | Kind::Sequence | Kind::Repeat => 2,
        Kind::If => 3,
    }
}

// Whether a node of this kind, a variable or an assignment, names a variable itself.
#[tactic(auto, unfolding(rules::proofs::Laws::Variables::names))]
fn names_one(kind: Kind) -> bool
    ensures { result ≡ names (kind_number_of kind) }
{
    matches!(kind, Kind::Variable | Kind::Assign)
}

// Sets the flags of the variables on a node's list.
fn flag_list(flags: &mut [bool; 32], made: &Mentioned, node: usize)
    requires { Row 32 made.now.lists node }
    ensures { flags.new ≡ flagged flags.old (list_at made.now.lists node) }
{
    for &v in made.of(node) {
        flags[usize::from(v)] = true;
    }
}

// Sets the flags of the variables on the lists of a node's children, the last child's first.
fn flag_children(flags: &mut [bool; 32], made: &Mentioned, children: &[usize])
    requires { Children made.now.lists children.now }
    ensures { flags.new ≡ flagged_by (list_at made.now.lists) children.now flags.old }
{
    for i in (0..children.len()).rev() {
        flag_list(flags, made, children[i]);
    }
}

// The flags of the variables that node n mentions, from the lists of the nodes below it.
fn flags_of(t: &[u8], made: &Mentioned, n: usize) -> [bool; 32]
    requires { Ready t.now made.now.lists n }
    ensures { rising 0 result ≡ vars_at t.now n }
{
    let node = read_known(t, HEADER_LENGTH + pair(t, 4) + NODE_LENGTH * n);
    let fields = [node.a, node.b, node.c];
    let mut flags = [false; 32];
    flag_children(&mut flags, made, &fields[..places_of(node.kind)]);
    if names_one(node.kind) {
        flags[node.tag] = true;
    }
    flags
}

// The lists of all nodes of an accepted table.
pub fn mentions(t: &[u8]) -> Mentioned
    requires { AcceptedTable t.now }
    ensures { Lists t.now result.lists }
{
    let mut made = Mentioned::blank();
    made.fill(t);
    made
}
