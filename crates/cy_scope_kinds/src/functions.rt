//! The functions of the language.

ghost use Rattle.std.specs.Prelude.{◌≡◌, ◌==◌, find};
ghost use Rattle.std.specs.Cmp.Lexicographic.{pointwise};
ghost use Rattle.std.specs.Prelude.{nat_eq};
ghost use Rattle.cy_scope_kinds.specs.Functions as spec;

use crate::kinds::Kind;

/// A function (openCypher 9, *Functions*, narrowed to this profile).
#[derive(Clone, Copy, Debug, PartialEq, Eq)]
pub enum Function {
    Id,
    Type,
    Labels,
    Size,
    Coalesce,
    Abs,
    ToString,
    Exists,
    Count,
    Sum,
    Min,
    Max,
    Collect,
}

/// Each function once.
const FUNCTIONS: [Function; 13] = [
    Function::Id,
    Function::Type,
    Function::Labels,
    Function::Size,
    Function::Coalesce,
    Function::Abs,
    Function::ToString,
    Function::Exists,
    Function::Count,
    Function::Sum,
    Function::Min,
    Function::Max,
    Function::Collect,
];

impl Function {
    /// The function's name, in lower case.
    pub fn spelling(self) -> &'static str
        ensures { result.now ≡ spec.spelling self }
    {
        match self {
            Function::Id => "id",
            Function::Type => "type",
            Function::Labels => "labels",
            Function::Size => "size",
            Function::Coalesce => "coalesce",
            Function::Abs => "abs",
            Function::ToString => "tostring",
            Function::Exists => "exists",
            Function::Count => "count",
            Function::Sum => "sum",
            Function::Min => "min",
            Function::Max => "max",
            Function::Collect => "collect",
        }
    }

    /// The function of the name, which has its ASCII letters in lower case.
    #[tactic(auto, unfolding(crate::specs::Functions::function_named))]
    pub fn named(name: &str) -> Option<Function>
        ensures { result ≡ spec.function_named name.now }
    {
        FUNCTIONS
            .iter()
            .copied()
            .find(|function| function.spelling() == name)
    }

    /// Whether it takes all rows of a group together.
    pub fn is_aggregate(self) -> bool
        ensures { result ≡ spec.is_aggregate self }
    {
        matches!(
            self,
            Function::Count | Function::Sum | Function::Min | Function::Max | Function::Collect
        )
    }

    /// Whether it takes an argument of the kind.
    pub(crate) fn takes(self, kind: Kind) -> bool
        ensures { result ≡ spec.takes self kind }
    {
        match self {
            Function::Id => kind.is_entity(),
            Function::Type => kind == Kind::Relationship,
            Function::Labels => kind == Kind::Node,
            Function::Size => kind == Kind::Relationships || kind.is_value(),
            Function::Count => true,
            _ => kind.is_value(),
        }
    }
}
