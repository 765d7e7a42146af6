// A checked table as the layers above read it: its nodes, and the variables that each node mentions.
ghost use Rattle.std.specs.Prelude.{◌≡◌, ◌+◌, ◌<◌};
ghost use Rattle.rules.specs.Table.{variables, nodes, nodes_at, constant_of};
ghost use Rattle.rules.proofs.Laws.Parts.{node_at};
ghost use Rattle.table.specs.Accepted.{AcceptedTable, accepted_once};
ghost use Rattle.table.specs.Lists.{list_at, Lists};
ghost use Rattle.table.specs.Sorts.{node_of};

use crate::access::{constant, pair};
use crate::layout::{HEADER_LENGTH, NODE_LENGTH};
use crate::mentioned::Mentioned;
use crate::node::{Node, read_known};

// An accepted table, and where its nodes begin.
#[derive(Clone, Copy, Drop)]
pub struct Checked<'a> {
    pub table: &'a [u8],
    pub base: usize,
    ghost accepted: { AcceptedTable table.now } by { accepted_once table.now },
    ghost based: { base ≡ nodes_at table.now },
}

impl<'a> Checked<'a> {
    // A table that the check accepts.
    pub fn new(table: &'a [u8]) -> Checked<'a>
        requires { AcceptedTable table.now }
        ensures { result.table.now ≡ table.now }
    {
        Checked {
            table,
            base: HEADER_LENGTH + pair(table, 4),
        }
    }

    // How many variables there are.
    pub fn variables(&self) -> usize
        ensures { result ≡ variables self.now.table.now }
    {
        self.base - HEADER_LENGTH
    }

    // The number of the root.
    pub fn root(&self) -> usize
        ensures { result + 1 ≡ nodes self.now.table.now }
    {
        pair(self.table, 6) - 1
    }

    // The node with a number.
    pub fn node(&self, n: usize) -> Node
        requires { n < nodes self.now.table.now }
        ensures { node_of result ≡ node_at self.now.table.now n }
    {
        read_known(self.table, self.base + NODE_LENGTH * n)
    }

    // The number of a number constant.
    pub fn constant(&self, n: usize) -> i64
        requires { n < nodes self.now.table.now }
        ensures { result ≡ constant_of (node_at self.now.table.now n) }
    {
        constant(self.table, self.base + NODE_LENGTH * n)
    }
}

// A checked table, and the variables that each of its nodes mentions.
#[derive(Clone, Copy, Drop)]
pub struct Script<'a> {
    pub checked: Checked<'a>,
    pub lists: &'a Mentioned,
    ghost listed: { Lists checked.table.now lists.now.lists },
}

impl<'a> Script<'a> {
    // An accepted table with its lists.
    pub fn new(table: &'a [u8], lists: &'a Mentioned) -> Script<'a>
        requires accepted { AcceptedTable table.now }
        requires listed { Lists table.now lists.now.lists }
        ensures table { result.checked.table.now ≡ table.now }
        ensures lists { result.lists.now ≡ lists.now }
    {
        Script {
            checked: Checked::new(table),
            lists,
        }
    }

    // The node with a number.
    pub fn node(&self, n: usize) -> Node
        requires { n < nodes self.now.checked.table.now }
        ensures { node_of result ≡ node_at self.now.checked.table.now n }
    {
        self.checked.node(n)
    }

    // The variables that a node mentions, rising.
    pub fn mentions(&self, n: usize) -> &'a [u8]
        requires { n < nodes self.now.checked.table.now }
        ensures { result.now ≡ list_at self.now.lists.now.lists n }
    {
        self.lists.of(n)
    }
}
