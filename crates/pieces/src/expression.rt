// Expressions: the change of the value, with the new record laid down from a place on. The old record and the new one are
// equally long.
ghost use Rattle.std.specs.Prelude.{◌≡◌, ◌+◌, ◌≤◌};
ghost use Rattle.rules.specs.Tree.{gives};
ghost use Rattle.table.specs.Kinds.{paper_operator, paper_type};
ghost use Rattle.run.specs.Code.{Number, farthest};
ghost use Rattle.pieces.specs.Change.{Near};
ghost use Rattle.pieces.specs.Old.{Inside};
ghost use Rattle.pieces.specs.Expression.{Recalls, Settles, Shiftable, Operates, ShiftsTo, OperandTo};

use crate::change::{minus, moved};
use run::input::in_type;
use run::number::compute;
use run::words::put;
use table::answer::Refusal;
use table::kind::{Kind, Operator, Type};
use table::script::Checked;

// An operator's old operands and its old result.
#[derive(Clone, Copy, Debug, PartialEq, Eq, Drop)]
pub struct Recalled {
    pub left: i64,
    pub right: i64,
    pub result: i64,
}

// The old operands at a place, each in its type, and what the operator made of them.
fn recall(operator: Operator, old: &[i64], from: usize, end: usize) -> Result<Recalled, Refusal>
    requires { Inside old.now from end }
    ensures { Recalls (paper_operator operator) old.now from end result }
{
    if end < from + 2 {
        return Err(Refusal::Broken);
    }
    let left = old[from];
    let right = old[from + 1];
    if !in_type(Type::Number, left) {
        return Err(Refusal::Broken);
    }
    if !in_type(Type::Number, right) {
        return Err(Refusal::Broken);
    }
    let Some(result) = compute(operator, left, right) else {
        return Err(Refusal::Broken);
    };
    Ok(Recalled {
        left,
        right,
        result,
    })
}

// Lays down an operator's new operands and answers with the change of its result, and the length of its record.
fn settle(
    operator: Operator,
    x: i64,
    y: i64,
    was: i64,
    out: &mut [i64],
    at: usize,
    length: usize,
) -> Result<(i64, usize), Refusal>
    requires { Number x × (Number y × (Near was × (at + 2 ≤ farthest))) }
    ensures { Settles (paper_operator operator) x y was out.old at length result out.new }
{
    put(out, at, x);
    put(out, at + 1, y);
    let Some(new) = compute(operator, x, y) else {
        return Err(Refusal::Range);
    };
    Ok((minus(operator.gives(), new, was), length))
}

// The change of the expression at a node, and the length of its record.
#[cycle(expressions)]
pub fn shift(
    checked: &Checked,
    node: usize,
    changes: &[i64; 32],
    old: &[i64],
    from: usize,
    end: usize,
    out: &mut [i64],
    at: usize,
) -> Result<(i64, usize), Refusal>
    requires { Shiftable checked.now node changes.now old.now from end at }
    ensures { ShiftsTo checked.now node changes.now old.now from end result out.old at out.new }
{
    let top = checked.node(node);
    match top.kind {
        Kind::Variable => Ok((changes[top.tag], 0)),
        Kind::Operator(operator) => {
            let before = recall(operator, old, from, end)?;
            operate(
                checked, node, operator, before, changes, old, from, end, out, at,
            )
        }
        _ => Ok((0, 0)),
    }
}

// The change of an operator whose old operands and old result are known: left, then right, then the result. Operands are taken apart by
// let .. else, as document 01 names it.
#[cycle(expressions)]
fn operate(
    checked: &Checked,
    node: usize,
    operator: Operator,
    before: Recalled,
    changes: &[i64; 32],
    old: &[i64],
    from: usize,
    end: usize,
    out: &mut [i64],
    at: usize,
) -> Result<(i64, usize), Refusal>
    requires { Operates checked.now node operator before changes.now old.now from end at }
    ensures { ShiftsTo checked.now node changes.now old.now from end result out.old at out.new }
{
    let top = checked.node(node);
    let left = operand(
        checked,
        top.a,
        before.left,
        changes,
        old,
        from + 2,
        end,
        out,
        at + 2,
    );
    let Ok((x, m)) = left else {
        return left;
    };
    let right = operand(
        checked,
        top.b,
        before.right,
        changes,
        old,
        from + 2 + m,
        end,
        out,
        at + 2 + m,
    );
    let Ok((y, n)) = right else {
        return right;
    };
    settle(operator, x, y, before.result, out, at, 2 + m + n)
}

// An operand's new value, the old one with the change of the expression at a node, and the length of its record.
#[cycle(expressions)]
pub fn operand(
    checked: &Checked,
    node: usize,
    was: i64,
    changes: &[i64; 32],
    old: &[i64],
    from: usize,
    end: usize,
    out: &mut [i64],
    at: usize,
) -> Result<(i64, usize), Refusal>
    requires { Shiftable checked.now node changes.now old.now from end at × Number was }
    ensures { OperandTo checked.now node was changes.now old.now from end result out.old at out.new }
{
    let shifted = shift(checked, node, changes, old, from, end, out, at);
    let Ok((change, length)) = shifted else {
        return shifted;
    };
    let Some(new) = moved(Type::Number, was, change) else {
        return Err(Refusal::Broken);
    };
    Ok((new, length))
}
