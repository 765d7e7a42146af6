// What a call is handed beside the table: one value for each variable, and the limit of steps.
ghost use Rattle.std.specs.Prelude.{◌≡◌, true, ◌≤◌, length, take};
ghost use Rattle.numbers.specs.Signed.{between};
ghost use Rattle.rules.specs.Value.{most_variables, in_type, padded, fit};
ghost use Rattle.rules.specs.Table.{nodes_at, types_of};
ghost use Rattle.rules.specs.Run.{most_steps};
ghost use Rattle.table.specs.Kinds.{paper_type};
ghost use Rattle.run.specs.Call.{limited};

use table::access::pair;
use table::answer::Store;
use table::kind::Type;
use table::layout::HEADER_LENGTH;

// Whether the value is one of low to high.
pub fn within(low: i64, high: i64, value: i64) -> bool
    ensures { result ≡ between low high value }
{
    (low..=high).contains(&value)
}

// Whether the value is one of the type.
pub fn in_type(kind: Type, value: i64) -> bool
    ensures { result ≡ in_type (paper_type kind) value }
{
    match kind {
        Type::Number => within(-2147483648, 2147483647, value),
        Type::Truth => within(0, 1, value),
    }
}

// Whether there is one value for each variable of the table, each in its type.
pub fn fits(t: &[u8], inputs: &[i64]) -> bool
    requires { nodes_at t.now ≤ length t.now }
    ensures { result ≡ fit (types_of t.now) inputs.now }
{
    let count = pair(t, 4);
    if inputs.len() != count {
        return false;
    }
    for i in 0..count {
        if !in_type(Type::from(t[HEADER_LENGTH + i]), inputs[i]) {
            return false;
        }
    }
    true
}

// The store that these words make: zero behind them.
pub fn padded(words: &[i64]) -> Store
    requires { length words.now ≤ most_variables }
    ensures { result.values ≡ padded words.now }
{
    let mut values = [0i64; 32];
    values[..words.len()].copy_from_slice(words);
    Store { values }
}

// A limit of steps that a call may have, as a count.
pub fn read_limit(limit: i64) -> Option<usize>
    ensures { result ≡ limited limit }
{
    if within(1, 1000000, limit) {
        return Some(limit as usize);
    }
    None
}
