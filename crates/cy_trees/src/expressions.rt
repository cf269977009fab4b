//! Expressions (openCypher 9, *Expressions*, narrowed to this profile).

use cy_values::Text;

/// A name that stands for a column of the rows.
#[derive(Drop)]
pub struct Variable {
    pub name: Text,
    /// The place of its column in a row, from 0, once the scope is known.
    pub column: Option<usize>,
}

/// An operator with one operand.
#[derive(Clone, Copy, Debug, PartialEq, Eq)]
pub enum UnaryOperator {
    /// `NOT`
    Not,
    /// the sign `+`
    Plus,
    /// the sign `-`
    Minus,
    /// `IS NULL`
    IsNull,
    /// `IS NOT NULL`
    IsNotNull,
}

/// An operator with two operands, which groups to the left.
#[derive(Clone, Copy, Debug, PartialEq, Eq)]
pub enum BinaryOperator {
    /// `OR`
    Or,
    /// `XOR`
    Xor,
    /// `AND`
    And,
    /// `IN`
    In,
    /// `CONTAINS`
    Contains,
    /// `STARTS WITH`
    StartsWith,
    /// `ENDS WITH`
    EndsWith,
    /// `+`
    Add,
    /// `-`
    Subtract,
    /// `*`
    Multiply,
    /// `/`
    Divide,
    /// `%`
    Remainder,
}

/// What two neighbours in a chain of comparisons are compared by.
#[derive(Clone, Copy, Debug, PartialEq, Eq)]
pub enum Comparator {
    /// `=`
    Equal,
    /// `<>`
    NotEqual,
    /// `<`
    Less,
    /// `<=`
    LessOrEqual,
    /// `>`
    Greater,
    /// `>=`
    GreaterOrEqual,
}

/// An expression. Brackets leave no trace in it.
#[cycle(tree)]
#[derive(Drop)]
pub enum Expr {
    Null,
    Boolean(bool),
    Integer(i64),
    Text(Text),
    Variable(Variable),
    /// A property of an entity, by its key: `x.k`.
    Property(Box<Expr>, Text),
    /// Whether a node has all of the labels, one or more: `x:A:B`.
    HasLabels(Box<Expr>, Vec<Text>),
    Unary(UnaryOperator, Box<Expr>),
    Binary(BinaryOperator, Box<Expr>, Box<Expr>),
    /// A chain of comparisons, of two operands or more: `a < b <= c`.
    Comparison(Box<Expr>, Vec<Link>),
    List(Vec<Expr>),
    /// The arms, one or more, and what stands after ELSE.
    Case(Vec<Arm>, Option<Box<Expr>>),
    /// A call of a function, by its name with its ASCII letters in lower case: whether DISTINCT is written, and the arguments.
    Call(Text, bool, Vec<Expr>),
    /// A call with a `*` in the place of arguments: `count(*)`.
    CallStar(Text),
}

/// A comparator in a chain, and the operand after it.
#[cycle(tree)]
#[derive(Drop)]
pub struct Link {
    pub comparator: Comparator,
    pub operand: Expr,
}

/// What CASE gives where a condition is true.
#[cycle(tree)]
#[derive(Drop)]
pub struct Arm {
    pub condition: Expr,
    pub outcome: Expr,
}
