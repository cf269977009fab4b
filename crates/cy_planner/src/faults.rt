//! Why a query has no plan.

ghost use Rattle.std.specs.Prelude.{◌≡◌, None};
ghost use Rattle.cy_planner.specs.declared.faults.PlanFault.TheVariants.{NoMemory};
ghost use Rattle.cy_planner.specs.Faults.{code_of};

use cy_values::Fault;
use std::alloc::{AllocError, AllocFailed};
use thiserror::Error;

/// Why a query has no plan (own).
#[derive(Clone, Copy, Debug, PartialEq, Eq, Error)]
pub enum PlanFault {
    /// The query weighs more than 512.
    #[error("the plan is too large")]
    PlanTooLarge,
    /// Out of memory.
    #[error("no memory")]
    NoMemory,
}

impl PlanFault {
    /// The number of the fault.
    pub fn code(&self) -> u16
        ensures { result ≡ code_of self.now }
    {
        match self {
            PlanFault::PlanTooLarge => 67,
            PlanFault::NoMemory => 90,
        }
    }

    /// The byte offset that the fault points at: there is none.
    pub fn at(&self) -> Option<usize>
        ensures { result ≡ None }
    {
        None
    }
}

impl From<AllocError> for PlanFault {
    ghost from_gives = { λ _ fault. fault ≡ NoMemory };

    fn from(_error: AllocError) -> PlanFault {
        PlanFault::NoMemory
    }
}

impl<T: Drop> From<AllocFailed<T>> for PlanFault {
    ghost from_gives = { λ _ fault. fault ≡ NoMemory };

    fn from(_failed: AllocFailed<T>) -> PlanFault {
        PlanFault::NoMemory
    }
}

impl From<Fault> for PlanFault {
    ghost from_gives = { λ _ fault. fault ≡ NoMemory };

    fn from(_fault: Fault) -> PlanFault {
        PlanFault::NoMemory
    }
}
