// What a patch is handed beside the table: an old record's header, and one change for each variable.
ghost use Rattle.std.specs.Prelude.{◌≡◌, true};
ghost use Rattle.rules.specs.Value;
ghost use Rattle.rules.specs.Value.{in_type};
ghost use Rattle.rules.specs.Table.{types_of};
ghost use Rattle.rules.specs.Call;
ghost use Rattle.rules.proofs.Laws.Header.{Sized};
ghost use Rattle.table.specs.Kinds.{paper_type};
ghost use Rattle.patch.specs.Call.{HeaderTo, legal_change, Sums};

use pieces::change::plus;
use run::input::{fits, in_type, read_limit, within};
use table::access::pair;
use table::answer::{Refusal, Store};
use table::kind::Type;
use table::layout::HEADER_LENGTH;

// What a whole header says beside inputs and outputs: the record's length, and the limit of steps.
#[derive(Clone, Copy, Debug, PartialEq, Eq, Drop)]
pub struct Header {
    pub length: usize,
    pub limit: usize,
}

// The old record's header: the length, the limit, the steps, the inputs and the outputs.
pub fn read_header(t: &[u8], old: &[i64]) -> Result<Header, Refusal>
    requires { Sized t.now }
    ensures { HeaderTo t.now old.now result }
{
    let v = pair(t, 4);
    let least = 3 + 2 * v;
    if old.len() < least {
        return Err(Refusal::Broken);
    }
    if !within(least as i64, old.len() as i64, old[0]) {
        return Err(Refusal::Broken);
    }
    let Some(limit) = read_limit(old[1]) else {
        return Err(Refusal::Broken);
    };
    if !within(1, old[1], old[2]) {
        return Err(Refusal::Broken);
    }
    if !(fits(t, &old[3..3 + v]) && fits(t, &old[3 + v..least])) {
        return Err(Refusal::Broken);
    }
    Ok(Header {
        length: old[0] as usize,
        limit,
    })
}

// Whether an input of the type may take this change. A change beyond 2^33 takes no number to a number: it is not added.
fn change_fits(kind: Type, input: i64, change: i64) -> bool
    requires { in_type (paper_type kind) input ≡ true }
    ensures { result ≡ legal_change (paper_type kind) input change }
{
    match kind {
        Type::Number => {
            within(-8589934592, 8589934592, change) && in_type(Type::Number, input + change)
        }
        Type::Truth => within(0, 1, change),
    }
}

// Whether there is one change for each variable, and each input may take its change.
pub fn legal(t: &[u8], inputs: &[i64], changes: &[i64]) -> bool
    requires { Sized t.now × (Value.fit (types_of t.now) inputs.now ≡ true) }
    ensures { result ≡ Call.legal (types_of t.now) inputs.now changes.now }
{
    if changes.len() != inputs.len() {
        return false;
    }
    for i in 0..inputs.len() {
        if !change_fits(Type::from(t[HEADER_LENGTH + i]), inputs[i], changes[i]) {
            return false;
        }
    }
    true
}

// Every word with its change, zero behind them.
pub fn sums(t: &[u8], words: &[i64], changes: &[i64; 32]) -> Store
    requires { Sums t.now words.now changes.now }
    ensures { result.values ≡ Value.padded (Value.plus_all (types_of t.now) words.now changes.now) }
{
    let mut values = [0i64; 32];
    for i in 0..words.len() {
        values[i] = plus(Type::from(t[HEADER_LENGTH + i]), words[i], changes[i]);
    }
    Store { values }
}
