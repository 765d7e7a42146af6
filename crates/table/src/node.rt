// A node of the table: its fields, what its kind asks of them, and the part that it makes of those before.
ghost use Rattle.std.specs.Prelude.{◌≡◌, ◌≢◌, ◌+◌, ◌<◌, ◌≤◌, length, drop};
ghost use Rattle.std.proofs.Math.Option.{none};
ghost use Rattle.rules.specs.Table.{read_node, kind_of};
ghost use Rattle.table.specs.Kinds.{paper_type, paper_kind};
ghost use Rattle.table.specs.Sorts.{fields_of, node_of, IsRead, sort_of_type, form, form_by, tag_fits, wanted_by, height_as, field_by, child_height, height_for, part_by};

use crate::access::pair;
use crate::answer::Refusal;
use crate::header::Extent;
use crate::kind::{Kind, Type};
use crate::layout::{HEADER_LENGTH, MOST_DEPTH, MOST_NODES};

// A node's eight bytes, whatever its kind.
#[derive(Clone, Copy, Debug, PartialEq, Eq, Drop)]
pub struct Fields {
    pub kind: u8,
    pub tag: usize,
    pub a: usize,
    pub b: usize,
    pub c: usize,
}

// A node's eight bytes, of a kind that there is.
#[derive(Clone, Copy, Debug, PartialEq, Eq, Drop)]
pub struct Node {
    pub kind: Kind,
    pub tag: usize,
    pub a: usize,
    pub b: usize,
    pub c: usize,
}

// The sort of a part.
#[derive(Clone, Copy, Debug, PartialEq, Eq, Drop)]
pub enum Sort {
    Number,
    Truth,
    Statement,
}

// The sort of an expression of a type.
impl From<Type> for Sort {
    ghost from_gives = { λ t r. r ≡ sort_of_type (paper_type t) };

    fn from(t: Type) -> Sort {
        match t {
            Type::Number => Sort::Number,
            Type::Truth => Sort::Truth,
        }
    }
}

// The part that a node makes: its sort, and its height, one more than the most for any above.
#[derive(Clone, Copy, Debug, PartialEq, Eq, Drop)]
pub struct Part {
    pub sort: Sort,
    pub height: u8,
}

// What a kind asks of its tag: to be zero, 0 or 1, or the number of a variable; of no kind, that no tag will do.
#[derive(Clone, Copy, Debug, PartialEq, Eq, Drop)]
pub enum Tag {
    Zero,
    Bit,
    Variable,
    Never,
}

// A sort that is asked for or given: this one, or the type of the variable that the tag names.
#[derive(Clone, Copy, Debug, PartialEq, Eq, Drop)]
pub enum Wanted {
    Sort(Sort),
    Tagged,
}

const NUMBER: Wanted = Wanted::Sort(Sort::Number);

const TRUTH: Wanted = Wanted::Sort(Sort::Truth);

const STATEMENT: Wanted = Wanted::Sort(Sort::Statement);

// What a kind asks of a field: any number will do, it is zero, or it is the number of a part of this sort.
#[derive(Clone, Copy, Debug, PartialEq, Eq, Drop)]
pub enum Field {
    Free,
    Zero,
    Child(Wanted),
}

// What a kind asks of its tag and children, and the sort that it gives.
#[derive(Clone, Copy, Debug, PartialEq, Eq, Drop)]
pub struct Form {
    pub tag: Tag,
    pub a: Field,
    pub b: Field,
    pub c: Field,
    pub gives: Wanted,
}

// The fields of the node whose bytes begin at a place of the table.
pub fn fields_at(t: &[u8], at: usize) -> Fields
    requires { at + 8 ≤ length t.now }
    ensures { fields_of result ≡ read_node (drop at t.now) }
{
    Fields {
        kind: t[at],
        tag: usize::from(t[at + 1]),
        a: pair(t, at + 2),
        b: pair(t, at + 4),
        c: pair(t, at + 6),
    }
}

// The node whose bytes begin at a place of the table; refused where its kind is none.
pub fn read(t: &[u8], at: usize) -> Result<Node, Refusal>
    requires { at + 8 ≤ length t.now }
    ensures { IsRead (read_node (drop at t.now)) result }
{
    let x = fields_at(t, at);
    Ok(Node {
        kind: Kind::try_from(x.kind)?,
        tag: x.tag,
        a: x.a,
        b: x.b,
        c: x.c,
    })
}

// The node whose bytes begin at a place, where its kind is known to be one.
pub fn read_known(t: &[u8], at: usize) -> Node
    requires inside { at + 8 ≤ length t.now }
    requires known { kind_of (read_node (drop at t.now)).kind ≢ none }
    ensures { node_of result ≡ read_node (drop at t.now) }
{
    match read(t, at) {
        Ok(node) => node,
        Err(_) => unreachable!(),
    }
}

// A form of these parts.
fn asks(tag: Tag, a: Field, b: Field, c: Field, gives: Wanted) -> Form
    ensures { result ≡ record { tag = tag; a = a; b = b; c = c; gives = gives } }
{
    Form {
        tag,
        a,
        b,
        c,
        gives,
    }
}

// What a kind asks of its tag and its children A, B and C, and what it gives.
pub fn asked_of(kind: Kind) -> Form
    ensures { result ≡ form (paper_kind kind) }
{
    let unused = Field::Zero;
    let number = Field::Child(NUMBER);
    let statement = Field::Child(STATEMENT);
    match kind {
        Kind::NumberConstant => asks(Tag::Zero, unused, Field::Free, Field::Free, NUMBER),
        Kind::TruthConstant => asks(Tag::Bit, unused, unused, unused, TRUTH),
        Kind::Variable => asks(Tag::Variable, unused, unused, unused, Wanted::Tagged),
        Kind::Operator(o) => asks(
            Tag::Zero,
            number,
            number,
            unused,
            Wanted::Sort(Sort::from(o.gives())),
        ),
        Kind::Skip => asks(Tag::Zero, unused, unused, unused, STATEMENT),
        Kind::Assign => asks(
            Tag::Variable,
            Field::Child(Wanted::Tagged),
            unused,
            unused,
            STATEMENT,
        ),
        Kind::Sequence => asks(Tag::Zero, statement, statement, unused, STATEMENT),
        Kind::If => asks(
            Tag::Zero,
            Field::Child(TRUTH),
            statement,
            statement,
            STATEMENT,
        ),
        Kind::Repeat => asks(Tag::Zero, number, statement, unused, STATEMENT),
    }
}

// Of no kind: what no node fits.
fn no_form() -> Form
    ensures { result ≡ form_by none }
{
    asks(Tag::Never, Field::Free, Field::Free, Field::Free, STATEMENT)
}

// What the kind with this number asks, and what it gives; of a number of no kind, what no node fits.
pub fn form_of(kind: usize) -> Form
    ensures { result ≡ form_by (kind_of kind) }
{
    let Ok(byte) = u8::try_from(kind) else {
        return no_form();
    };
    match Kind::try_from(byte) {
        Ok(known) => asked_of(known),
        Err(_) => no_form(),
    }
}

// Whether the tag is one that its kind may have, in a table of v variables.
fn tag_fits(rule: Tag, tag: usize, v: usize) -> bool
    ensures { result ≡ tag_fits rule tag v }
{
    match rule {
        Tag::Zero => tag == 0,
        Tag::Bit => tag < 2,
        Tag::Variable => tag < v,
        Tag::Never => false,
    }
}

// The sort that is asked for or given, where it may be the type of the variable that the tag names.
fn wanted_by(t: &[u8], wanted: Wanted, tag: usize) -> Sort
    requires { 16 + tag < length t.now }
    ensures { result ≡ wanted_by t.now wanted tag }
{
    match wanted {
        Wanted::Sort(sort) => sort,
        Wanted::Tagged => Sort::from(Type::from(t[HEADER_LENGTH + tag])),
    }
}

// The height of a part, which is to be there and of this sort.
pub fn height_as(sort: Sort, part: Option<Part>) -> Result<u8, Refusal>
    ensures { result ≡ height_as sort part }
{
    match part {
        Some(part) if part.sort == sort => Ok(part.height),
        _ => Err(Refusal::Node),
    }
}

// The height of a field's child, 0 where it has none; refused where the field is not as its kind asks.
fn field_height(
    t: &[u8],
    rule: Field,
    x: usize,
    tag: usize,
    parts: &[Option<Part>; MOST_NODES],
) -> Result<u8, Refusal>
    requires { 16 + tag < length t.now }
    ensures { result ≡ field_by t.now rule x tag parts.now }
{
    match rule {
        Field::Free => Ok(0),
        Field::Zero => if x == 0 { Ok(0) } else { Err(Refusal::Node) },
        Field::Child(wanted) => {
            let part = if x < MOST_NODES { parts[x] } else { None };
            height_as(wanted_by(t, wanted, tag), part)
        }
    }
}

// The height of a field's child as it is kept, 0 where it has none or none is kept.
fn child_height(rule: Field, x: usize, parts: &[Option<Part>; MOST_NODES]) -> u8
    ensures { result ≡ child_height rule x parts.now }
{
    match rule {
        Field::Free | Field::Zero => 0,
        Field::Child(_) => {
            let part = if x < MOST_NODES { parts[x] } else { None };
            match part {
                Some(part) => part.height,
                None => 0,
            }
        }
    }
}

// The height that a form gives a node, whether or not the node fits it.
pub fn height_of(form: Form, x: Node, parts: &[Option<Part>; MOST_NODES]) -> u8
    ensures { result ≡ height_for form (node_of x) parts.now }
{
    let a = child_height(form.a, x.a, parts);
    let b = child_height(form.b, x.b, parts);
    let c = child_height(form.c, x.c, parts);
    a.max(b).max(c).saturating_add(1).min(MOST_DEPTH + 1)
}

// The part that a node makes of those before it, where this is asked of it; refused where it makes none.
#[tactic(auto, unfolding(crate::specs::Sorts::part_by))]
pub fn part_for(
    t: &[u8],
    v: usize,
    form: Form,
    x: Node,
    parts: &[Option<Part>; MOST_NODES],
) -> Result<Part, Refusal>
    requires { (16 + v < length t.now) × (19 < length t.now) }
    ensures { result ≡ part_by t.now v form (node_of x) parts.now }
{
    if !tag_fits(form.tag, x.tag, v) {
        return Err(Refusal::Node);
    }
    let a = field_height(t, form.a, x.a, x.tag, parts)?;
    let b = field_height(t, form.b, x.b, x.tag, parts)?;
    let c = field_height(t, form.c, x.c, x.tag, parts)?;
    Ok(Part {
        sort: wanted_by(t, form.gives, x.tag),
        height: a.max(b).max(c).saturating_add(1).min(MOST_DEPTH + 1),
    })
}

// The part that a node makes of those before it; refused where it makes none.
pub fn part_of(table: &Extent, x: Node, parts: &[Option<Part>; MOST_NODES]) -> Result<Part, Refusal>
    ensures { result ≡ part_by table.now.bytes.now table.now.variables (form (paper_kind x.kind)) (node_of x) parts.now }
{
    part_for(table.bytes, table.variables, asked_of(x.kind), x, parts)
}
