// Reading a table's bytes: numbers of 16 and 32 bits, little-endian, and types.
ghost use Rattle.std.specs.Prelude.{◌≡◌, ◌+◌, ◌<◌, ◌≤◌, length, drop};
ghost use Rattle.rules.specs.Table.{u16, variables, nodes_at, types_of, read_node, constant_of};
ghost use Rattle.rules.specs.Value.{type_of};
ghost use Rattle.table.specs.Kinds.{paper_type};

use crate::kind::Type;
use crate::layout::HEADER_LENGTH;

// The 16 bits at a place of the table.
#[tactic(auto, unfolding(rules::specs::Table::u16))]
pub fn pair(t: &[u8], at: usize) -> usize
    requires { at + 1 < length t.now }
    ensures { (result ≡ u16 t.now at) × (result < 65536) }
{
    usize::from(u16::from_le_bytes([t[at], t[at + 1]]))
}

// The number of the number constant whose eight bytes begin here: bytes 4 to 7, signed.
pub fn constant(t: &[u8], at: usize) -> i64
    requires { at + 8 ≤ length t.now }
    ensures { result ≡ constant_of (read_node (drop at t.now)) }
{
    i64::from(i32::from_le_bytes([t[at + 4], t[at + 5], t[at + 6], t[at + 7]]))
}

// The type of a variable.
pub fn type_of(t: &[u8], v: usize) -> Type
    requires { (nodes_at t.now ≤ length t.now) × (v < variables t.now) }
    ensures { paper_type result ≡ type_of (types_of t.now) v }
{
    Type::from(t[HEADER_LENGTH + v])
}
