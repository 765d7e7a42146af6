// Values and their changes: a number's change is added, a truth's turns it round.
ghost use Rattle.std.specs.Prelude.{◌≡◌};
ghost use Rattle.rules.specs.Value;
ghost use Rattle.table.specs.Kinds.{paper_type};
ghost use Rattle.pieces.specs.Change.{Near, moved_as};

use run::input::in_type;
use table::kind::Type;

// Whether two truths differ, as a truth.
fn differ(a: i64, b: i64) -> i64
    ensures { result ≡ Value.differ a b }
{
    i64::from(a != b)
}

// The old value with its change.
pub fn plus(kind: Type, old: i64, change: i64) -> i64
    requires { Near old × Near change }
    ensures { result ≡ Value.plus (paper_type kind) old change }
{
    match kind {
        Type::Number => old + change,
        Type::Truth => differ(old, change),
    }
}

// The change from the old value to the new one.
pub fn minus(kind: Type, new: i64, old: i64) -> i64
    requires { Near new × Near old }
    ensures { result ≡ Value.minus (paper_type kind) new old }
{
    match kind {
        Type::Number => new - old,
        Type::Truth => differ(new, old),
    }
}

// The old value with its change, where that is a value of the type.
pub fn moved(kind: Type, old: i64, change: i64) -> Option<i64>
    requires { Near old × Near change }
    ensures { result ≡ moved_as (paper_type kind) old change }
{
    let new = plus(kind, old, change);
    if !in_type(kind, new) {
        return None;
    }
    Some(new)
}
