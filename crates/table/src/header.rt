// A table's header: refusal 1, and the table's sizes where its header is right.
ghost use Rattle.std.specs.Prelude.{◌≡◌, ◌+◌, ◌*◌, ◌≤◌, ◌<◌, length, drop};
ghost use Rattle.rules.specs.Table.{marked, type_bytes, check_header, read_node};
ghost use Rattle.table.specs.Agrees.{Agrees};
ghost use Rattle.table.specs.Sorts.{IsRead};
ghost use Rattle.table.specs.Told.{sizes_fit, offsets_fit, header_fits, Headed};

use crate::access::pair;
use crate::answer::Refusal;
use crate::layout::{HEADER_LENGTH, MOST_NODES, MOST_VARIABLES, NODE_LENGTH};
use crate::node::{Node, read};

// Whether the table begins with its mark.
fn has_mark(t: &[u8]) -> bool
    requires { 16 ≤ length t.now }
    ensures { result ≡ marked t.now }
{
    t.starts_with(b"IMPT")
}

// Whether there may be as many variables and nodes.
#[tactic(auto, unfolding(crate::specs::Told::sizes_fit))]
fn sizes_fit(v: usize, n: usize) -> bool
    ensures { result ≡ sizes_fit v n }
{
    1 <= v && v <= MOST_VARIABLES && 1 <= n && n <= MOST_NODES
}

// Whether the header's offsets, its total length and its last field are those of a table with v variables and n nodes.
#[tactic(auto, unfolding(crate::specs::Told::offsets_fit))]
fn offsets_fit(t: &[u8], v: usize, n: usize) -> bool
    requires { (16 ≤ length t.now) × (v < 65536) × (n < 65536) }
    ensures { result ≡ offsets_fit t.now v n }
{
    pair(t, 8) == HEADER_LENGTH
        && pair(t, 10) == HEADER_LENGTH + v
        && pair(t, 12) == HEADER_LENGTH + v + NODE_LENGTH * n
        && pair(t, 14) == 0
}

// Whether the header is right: refusal 1 otherwise.
#[tactic(auto, unfolding(crate::specs::Told::header_fits))]
fn header_fits(t: &[u8]) -> bool
    ensures { result ≡ header_fits t.now }
{
    if t.len() < HEADER_LENGTH || !has_mark(t) {
        return false;
    }
    let v = pair(t, 4);
    let n = pair(t, 6);
    sizes_fit(v, n) && offsets_fit(t, v, n) && t.len() == HEADER_LENGTH + v + NODE_LENGTH * n
}

// A table whose header is right: its bytes, and how many variables and nodes it has.
#[derive(Clone, Copy, Drop)]
pub struct Extent<'a> {
    pub bytes: &'a [u8],
    pub variables: usize,
    pub nodes: usize,
    ghost headed: { Headed bytes.now variables nodes },
}

impl<'a> Extent<'a> {
    // The extent of a table; refused where its header is wrong.
    pub fn of(bytes: &'a [u8]) -> Result<Extent<'a>, Refusal>
        ensures { Agrees (λ _ table. table.bytes.now ≡ bytes.now) (check_header bytes.now) result }
    {
        if !header_fits(bytes) {
            return Err(Refusal::Header);
        }
        Ok(Extent {
            bytes,
            variables: pair(bytes, 4),
            nodes: pair(bytes, 6),
        })
    }

    // The bytes of the variables' types.
    pub fn types(&self) -> &'a [u8]
        ensures { result.now ≡ type_bytes self.now.bytes.now }
    {
        &self.bytes[HEADER_LENGTH..HEADER_LENGTH + self.variables]
    }

    // The node with a number; refused where its kind is none.
    pub fn node(&self, n: usize) -> Result<Node, Refusal>
        requires { n < self.now.nodes }
        ensures { IsRead (read_node (drop (16 + self.now.variables + 8 * n) self.now.bytes.now)) result }
    {
        read(self.bytes, HEADER_LENGTH + self.variables + NODE_LENGTH * n)
    }
}
