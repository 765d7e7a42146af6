// Words of a record, laid down in the lent buffer: what falls past its end is only counted. A place is passed and not held by a writer: an
// entry's opening words, its operands and its later snapshot stand before words that are laid first.
ghost use Rattle.std.specs.Prelude.{◌≡◌, ◌++◌, ◌+◌, ◌-◌, ◌≤◌, length, take, set};
ghost use Rattle.numbers.specs.Lay.{lay};
ghost use Rattle.rules.specs.Value.{snapshot, zeros};
ghost use Rattle.table.specs.Lists.{list_at};
ghost use Rattle.run.specs.Code.{farthest};
ghost use Rattle.run.specs.Words.{Listed};

use table::mentioned::Mentioned;

// One word at a place.
pub fn put(out: &mut [i64], at: usize, word: i64)
    ensures { out.new ≡ set out.old at word }
{
    if at < out.len() {
        out[at] = word;
    }
}

// The snapshot of a node's variables from a place on; returns the place behind it.
pub fn snapshot(
    lists: &Mentioned,
    node: usize,
    values: &[i64; 32],
    out: &mut [i64],
    at: usize,
) -> usize
    requires { Listed lists.now.lists node at }
    ensures laid { out.new ≡ lay out.old at (snapshot (list_at lists.now.lists node) values.now) }
    ensures behind { result ≡ at + length (list_at lists.now.lists node) }
{
    let variables = lists.of(node);
    for (i, &v) in variables.iter().enumerate() {
        put(out, at + i, values[usize::from(v)]);
    }
    at + variables.len()
}

// All words of a slice from a place on; returns the place behind them.
pub fn lay_slice(out: &mut [i64], at: usize, from: &[i64]) -> usize
    requires { (at ≤ farthest) × (length from.now ≤ farthest) }
    ensures laid { out.new ≡ lay out.old at from.now }
    ensures behind { result ≡ at + length from.now }
{
    for (i, &word) in from.iter().enumerate() {
        put(out, at + i, word);
    }
    at + from.len()
}

// Zeros from a place to the end.
pub fn clear(out: &mut [i64], from: usize)
    ensures { out.new ≡ take from out.old ++ zeros (length out.old - from) }
{
    if from < out.len() {
        out[from..].fill(0);
    }
}
