//! What an expression is for certain.

ghost use Rattle.std.specs.Prelude.{◌≡◌};
ghost use Rattle.cy_scope_kinds.specs.Kinds as spec;

/// What the value of an expression is for certain, if it isn't null (own).
#[derive(Clone, Copy, Debug, PartialEq, Eq)]
pub enum Kind {
    /// A node.
    Node,
    /// One relationship.
    Relationship,
    /// The relationships that a length stands for.
    Relationships,
    /// A boolean, an integer, a text or a list.
    Value,
    /// A boolean.
    Flag,
}

impl Kind {
    /// Whether it is a boolean, an integer, a text or a list for certain: a value or a flag.
    pub fn is_value(self) -> bool
        ensures { result ≡ spec.is_value self }
    {
        matches!(self, Kind::Value | Kind::Flag)
    }

    /// Whether it is a boolean for certain.
    pub fn is_flag(self) -> bool
        ensures { result ≡ spec.is_flag self }
    {
        matches!(self, Kind::Flag)
    }

    /// Whether it is a node or one relationship for certain.
    pub fn is_entity(self) -> bool
        ensures { result ≡ spec.is_entity self }
    {
        matches!(self, Kind::Node | Kind::Relationship)
    }
}

/// A flag where each part is one.
pub(crate) fn flag_if(flags: bool) -> Kind
    ensures { result ≡ spec.flag_if flags }
{
    if flags { Kind::Flag } else { Kind::Value }
}
