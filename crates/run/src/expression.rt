// Expressions: the value, with the record laid down from a place on.
ghost use Rattle.std.specs.Prelude.{◌≡◌, ◌+◌, ◌≤◌};
ghost use Rattle.table.specs.Kinds.{paper_operator};
ghost use Rattle.run.specs.Code.{Number, farthest, Finishes, Evaluable, EvaluatesTo, Operates};

use crate::number::compute;
use crate::words::put;
use table::answer::Refusal;
use table::kind::{Kind, Operator};
use table::script::Checked;

// Lays down an operator's two operands and answers with its result and where its record ends.
fn finish(
    operator: Operator,
    x: i64,
    y: i64,
    out: &mut [i64],
    at: usize,
    end: usize,
) -> Result<(i64, usize), Refusal>
    requires { Number x × (Number y × (at + 2 ≤ farthest)) }
    ensures { Finishes (paper_operator operator) x y out.old at end result out.new }
{
    put(out, at, x);
    put(out, at + 1, y);
    let Some(z) = compute(operator, x, y) else {
        return Err(Refusal::Range);
    };
    Ok((z, end))
}

// The value of the expression at a node, and the place behind its record.
#[cycle(expressions)]
pub fn evaluate(
    checked: &Checked,
    node: usize,
    values: &[i64; 32],
    out: &mut [i64],
    at: usize,
) -> Result<(i64, usize), Refusal>
    requires { Evaluable checked.now node values.now at }
    ensures { EvaluatesTo checked.now node values.now result out.old at out.new }
{
    let top = checked.node(node);
    match top.kind {
        Kind::NumberConstant => Ok((checked.constant(node), at)),
        Kind::TruthConstant => Ok((top.tag as i64, at)),
        Kind::Variable => Ok((values[top.tag], at)),
        Kind::Operator(operator) => operate(checked, node, operator, values, out, at),
        _ => unreachable!(),
    }
}

// The value of an operator: left, then right, then the result. Operands are taken apart by let .. else, as document 01 names it.
#[cycle(expressions)]
fn operate(
    checked: &Checked,
    node: usize,
    operator: Operator,
    values: &[i64; 32],
    out: &mut [i64],
    at: usize,
) -> Result<(i64, usize), Refusal>
    requires { Operates checked.now node operator values.now at }
    ensures { EvaluatesTo checked.now node values.now result out.old at out.new }
{
    let top = checked.node(node);
    let left = evaluate(checked, top.a, values, out, at + 2);
    let Ok((x, behind)) = left else {
        return left;
    };
    let right = evaluate(checked, top.b, values, out, behind);
    let Ok((y, end)) = right else {
        return right;
    };
    finish(operator, x, y, out, at, end)
}
