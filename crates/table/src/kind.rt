// The kinds of nodes, the operators among them, and the types of variables.
ghost use Rattle.std.specs.Prelude.{◌≡◌};
ghost use Rattle.rules.specs.Tree.{gives};
ghost use Rattle.table.specs.Kinds.{paper_type, paper_operator, Decodes, TypeDecodes};

use crate::answer::Refusal;

// The type of a variable or of an expression.
#[derive(Clone, Copy, Debug, PartialEq, Eq, Drop)]
pub enum Type {
    Number,
    Truth,
}

// An operator of two numbers.
#[derive(Clone, Copy, Debug, PartialEq, Eq, Drop)]
pub enum Operator {
    Add,
    Subtract,
    Multiply,
    Greater,
    Equal,
}

impl Operator {
    // The type of what it gives.
    #[tactic(auto, unfolding(rules::specs::Tree::gives))]
    pub fn gives(self) -> Type
        ensures { paper_type result ≡ gives (paper_operator self) }
    {
        match self {
            Operator::Add | Operator::Subtract | Operator::Multiply => Type::Number,
            Operator::Greater | Operator::Equal => Type::Truth,
        }
    }
}

// What a node is the top of.
#[derive(Clone, Copy, Debug, PartialEq, Eq, Drop)]
pub enum Kind {
    NumberConstant,
    TruthConstant,
    Variable,
    Operator(Operator),
    Skip,
    Assign,
    Sequence,
    If,
    Repeat,
}

// The kind with a number, as the paper's table of nodes has it; a number of no kind is refused as the node is.
impl TryFrom<u8> for Kind {
    type Error = Refusal;

    ghost try_from_gives = { Decodes };

    #[tactic(auto, unfolding(rules::specs::Table::kind_of, rules::specs::Table::kinds))]
    fn try_from(number: u8) -> Result<Kind, Refusal> {
        match number {
            1 => Ok(Kind::NumberConstant),
            2 => Ok(Kind::TruthConstant),
            3 => Ok(Kind::Variable),
            4 => Ok(Kind::Operator(Operator::Add)),
            5 => Ok(Kind::Operator(Operator::Subtract)),
            6 => Ok(Kind::Operator(Operator::Multiply)),
            7 => Ok(Kind::Operator(Operator::Greater)),
            8 => Ok(Kind::Operator(Operator::Equal)),
            16 => Ok(Kind::Skip),
            17 => Ok(Kind::Assign),
            18 => Ok(Kind::Sequence),
            19 => Ok(Kind::If),
            20 => Ok(Kind::Repeat),
            _ => Err(Refusal::Node),
        }
    }
}

// The type that a byte of a table names: 0 a number, else a truth, and an accepted table has no byte above 1.
impl From<u8> for Type {
    ghost from_gives = { TypeDecodes };

    #[tactic(auto, unfolding(rules::specs::Table::ty_of))]
    fn from(byte: u8) -> Type {
        if byte == 0 { Type::Number } else { Type::Truth }
    }
}
