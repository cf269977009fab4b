//! The values of properties and expressions.

ghost use Rattle.std.specs.Prelude.{◌≡◌, IfOk};

use crate::faults::Fault;
use crate::sequences::Duplicate;
use crate::shared::Shared;
use crate::texts::Text;
use std::alloc::Global;

/// An element of a list. The variants stand in the order of values.
#[derive(Debug, Drop, PartialEq, Eq, PartialOrd, Ord, Hash)]
pub enum Scalar {
    Text(Text),
    Bool(bool),
    Int(i64),
    Null,
}

/// A value: a list of scalars, or one scalar. The variants stand in the order of values.
#[derive(Debug, Drop, PartialEq, Eq, PartialOrd, Ord, Hash)]
pub enum Value {
    List(Shared<Scalar>),
    Text(Text),
    Bool(bool),
    Int(i64),
    Null,
}

impl Duplicate for Scalar {
    fn copy(&self, alloc: Global) -> Result<Self, Fault> {
        match self {
            Scalar::Text(text) => Ok(Scalar::Text(text.copy(alloc)?)),
            Scalar::Bool(truth) => Ok(Scalar::Bool(*truth)),
            Scalar::Int(number) => Ok(Scalar::Int(*number)),
            Scalar::Null => Ok(Scalar::Null),
        }
    }
}

impl Duplicate for Value {
    fn copy(&self, alloc: Global) -> Result<Self, Fault> {
        match self {
            Value::List(scalars) => Ok(Value::List(scalars.copy(alloc)?)),
            Value::Text(text) => Ok(Value::Text(text.copy(alloc)?)),
            Value::Bool(truth) => Ok(Value::Bool(*truth)),
            Value::Int(number) => Ok(Value::Int(*number)),
            Value::Null => Ok(Value::Null),
        }
    }
}
