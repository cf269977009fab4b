//! The places where an expression stands inside of another.

/// What may stand inside of one more level of an expression (own).
#[derive(Clone, Copy)]
pub enum Nested {
    /// A whole expression.
    Whole,
    /// What stands after NOT.
    Negation,
    /// What stands after a sign.
    Sign,
}
