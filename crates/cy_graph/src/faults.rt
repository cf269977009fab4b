//! Why a change of the graph was refused.

ghost use Rattle.std.specs.Prelude.{◌≡◌, None};
ghost use Rattle.cy_graph.specs.declared.faults.GraphFault.TheVariants.{NoMemory};
ghost use Rattle.cy_graph.specs.Faults.{code_of};

use cy_values::{Fault, RelId};
use std::alloc::{AllocError, AllocFailed};
use thiserror::Error;

/// Why a change of the graph was refused. The graph is as it was before the call.
#[derive(Clone, Copy, Debug, PartialEq, Eq, Error)]
pub enum GraphFault {
    /// The node has relationships; this is the one with the least number.
    #[error("a relationship is still there")]
    StillConnected(RelId),
    /// Each number of the series was given out.
    #[error("no number is left")]
    Full,
    /// Out of memory.
    #[error("no memory")]
    NoMemory,
}

impl GraphFault {
    /// The number of the fault: 50 for `StillConnected`, 53 for `Full`, 90 for `NoMemory`.
    pub fn code(&self) -> u16
        ensures { result ≡ code_of self.now }
    {
        match self {
            GraphFault::StillConnected(_) => 50,
            GraphFault::Full => 53,
            GraphFault::NoMemory => 90,
        }
    }

    /// The byte offset that the fault points at: there is none.
    pub fn at(&self) -> Option<usize>
        ensures { result ≡ None }
    {
        None
    }
}

impl From<AllocError> for GraphFault {
    ghost from_gives = { λ _ fault. fault ≡ NoMemory };

    fn from(_error: AllocError) -> GraphFault {
        GraphFault::NoMemory
    }
}

impl<T: Drop> From<AllocFailed<T>> for GraphFault {
    ghost from_gives = { λ _ fault. fault ≡ NoMemory };

    fn from(_failed: AllocFailed<T>) -> GraphFault {
        GraphFault::NoMemory
    }
}

impl From<Fault> for GraphFault {
    ghost from_gives = { λ _ fault. fault ≡ NoMemory };

    fn from(_fault: Fault) -> GraphFault {
        GraphFault::NoMemory
    }
}
