//! The faults of statements.

ghost use Rattle.std.specs.Prelude.{◌≡◌, None};
ghost use Rattle.cy_updates_meaning.specs.declared.faults.UpdateFault.TheVariants.{NoMemory};
ghost use Rattle.cy_updates_meaning.specs.Faults.{code_of, of_evaluation, of_graph};

use cy_expr::EvalFault;
use cy_graph::GraphFault;
use cy_values::{Fault, RelId};
use std::alloc::{AllocError, AllocFailed};
use thiserror::Error;

/// Why a statement isn't executed (own). The graph is as it was before the statement.
#[derive(Clone, Copy, Debug, PartialEq, Eq, Error)]
pub enum UpdateFault {
    /// An expression has no value.
    #[error("{0}")]
    Eval(EvalFault),
    /// A node that is to be deleted has relationships that remain; this is the one with the least number.
    #[error("a relationship is still there")]
    StillConnected(RelId),
    /// An end of a relationship that is to be made is null.
    #[error("an end is null")]
    NullEndpoint,
    /// The value of a property is a list with null in it.
    #[error("a list with null can't be stored")]
    NotStorable,
    /// All 2^40 numbers of nodes or of relationships were given out.
    #[error("no number is left")]
    Full,
    /// Out of memory.
    #[error("no memory")]
    NoMemory,
}

impl UpdateFault {
    /// The number of the fault: 40 to 44 for `Eval`, 50 for `StillConnected`, 51 for `NullEndpoint`, 52 for `NotStorable`, 53 for `Full`, 90 for `NoMemory`.
    pub fn code(&self) -> u16
        ensures { result ≡ code_of self.now }
    {
        match self {
            UpdateFault::Eval(fault) => fault.code(),
            UpdateFault::StillConnected(_) => 50,
            UpdateFault::NullEndpoint => 51,
            UpdateFault::NotStorable => 52,
            UpdateFault::Full => 53,
            UpdateFault::NoMemory => 90,
        }
    }

    /// The byte offset that the fault points at: there is none.
    pub fn at(&self) -> Option<usize>
        ensures { result ≡ None }
    {
        None
    }
}

impl From<AllocError> for UpdateFault {
    ghost from_gives = { λ _ fault. fault ≡ NoMemory };

    fn from(_error: AllocError) -> UpdateFault {
        UpdateFault::NoMemory
    }
}

impl<T: Drop> From<AllocFailed<T>> for UpdateFault {
    ghost from_gives = { λ _ fault. fault ≡ NoMemory };

    fn from(_failed: AllocFailed<T>) -> UpdateFault {
        UpdateFault::NoMemory
    }
}

impl From<Fault> for UpdateFault {
    ghost from_gives = { λ _ fault. fault ≡ NoMemory };

    fn from(_fault: Fault) -> UpdateFault {
        UpdateFault::NoMemory
    }
}

impl From<EvalFault> for UpdateFault {
    ghost from_gives = { λ evaluated fault. fault ≡ of_evaluation evaluated };

    fn from(evaluated: EvalFault) -> UpdateFault {
        match evaluated {
            EvalFault::NoMemory => UpdateFault::NoMemory,
            _ => UpdateFault::Eval(evaluated),
        }
    }
}

impl From<GraphFault> for UpdateFault {
    ghost from_gives = { λ refused fault. fault ≡ of_graph refused };

    fn from(refused: GraphFault) -> UpdateFault {
        match refused {
            GraphFault::StillConnected(rel) => UpdateFault::StillConnected(rel),
            GraphFault::Full => UpdateFault::Full,
            GraphFault::NoMemory => UpdateFault::NoMemory,
        }
    }
}
