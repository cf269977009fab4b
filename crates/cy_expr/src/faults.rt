//! The faults of expressions.

ghost use Rattle.std.specs.Prelude.{◌≡◌, None};
ghost use Rattle.cy_expr.specs.declared.faults.EvalFault.TheVariants.{NoMemory};
ghost use Rattle.cy_expr.specs.Faults.{code_of};

use cy_values::Fault;
use std::alloc::{AllocError, AllocFailed};
use thiserror::Error;

/// Why an expression has no value (own).
#[derive(Clone, Copy, Debug, PartialEq, Eq, Error)]
pub enum EvalFault {
    /// An operand of a truth operator or a condition that is neither boolean nor null.
    #[error("not a boolean")]
    NotBoolean,
    /// An operand or an argument of a type that its operator or function doesn't take.
    #[error("wrong type")]
    WrongType,
    /// An integer that 64 bits don't hold.
    #[error("overflow")]
    Overflow,
    /// A division by zero, or its remainder.
    #[error("division by zero")]
    DivisionByZero,
    /// A list as an element of a list.
    #[error("nested list")]
    NestedList,
    /// Out of memory.
    #[error("no memory")]
    NoMemory,
}

impl EvalFault {
    /// The number of the fault.
    pub fn code(&self) -> u16
        ensures { result ≡ code_of self.now }
    {
        match self {
            EvalFault::NotBoolean => 40,
            EvalFault::WrongType => 41,
            EvalFault::Overflow => 42,
            EvalFault::DivisionByZero => 43,
            EvalFault::NestedList => 44,
            EvalFault::NoMemory => 90,
        }
    }

    /// The byte offset that the fault points at: there is none.
    pub fn at(&self) -> Option<usize>
        ensures { result ≡ None }
    {
        None
    }
}

impl From<AllocError> for EvalFault {
    ghost from_gives = { λ _ fault. fault ≡ NoMemory };

    fn from(_error: AllocError) -> EvalFault {
        EvalFault::NoMemory
    }
}

impl<T: Drop> From<AllocFailed<T>> for EvalFault {
    ghost from_gives = { λ _ fault. fault ≡ NoMemory };

    fn from(_failed: AllocFailed<T>) -> EvalFault {
        EvalFault::NoMemory
    }
}

impl From<Fault> for EvalFault {
    ghost from_gives = { λ _ fault. fault ≡ NoMemory };

    fn from(_fault: Fault) -> EvalFault {
        EvalFault::NoMemory
    }
}
