// Operators on numbers of the 32-bit range.
ghost use Rattle.std.specs.Prelude.{◌≡◌};
ghost use Rattle.rules.specs.Tree;
ghost use Rattle.table.specs.Kinds.{paper_operator};
ghost use Rattle.run.specs.Code.{Number, computed_as};

use table::kind::Operator;

// What an operator gives, in 64 bits; a test's answer is a truth, 0 or 1.
fn apply(operator: Operator, x: i64, y: i64) -> i64
    requires { Number x × Number y }
    ensures { result ≡ Tree.apply (paper_operator operator) x y }
{
    match operator {
        Operator::Add => x + y,
        Operator::Subtract => x - y,
        Operator::Multiply => x * y,
        Operator::Greater => i64::from(y < x),
        Operator::Equal => i64::from(x == y),
    }
}

// What an operator makes of two numbers, where that is a value of its type.
pub fn compute(operator: Operator, x: i64, y: i64) -> Option<i64>
    requires { Number x × Number y }
    ensures { result ≡ computed_as (paper_operator operator) x y }
{
    let z = apply(operator, x, y);
    if z < -2147483648 {
        return None;
    }
    if 2147483647 < z {
        return None;
    }
    Some(z)
}
