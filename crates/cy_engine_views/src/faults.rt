//! Why a view isn't kept up.

ghost use Rattle.std.specs.Prelude.{◌≡◌, None};
ghost use Rattle.cy_engine_views.specs.Faults.{code_of, of_memory, of_plan};
ghost use Rattle.cy_engine_views.specs.declared.faults.UpkeepFault.TheVariants.{NoMemory};

use cy_network_memory::MemoryFault;
use cy_planner::PlanFault;
use cy_values::Fault;
use std::alloc::{AllocError, AllocFailed};
use thiserror::Error;

/// Why a view can't be made, or can't follow the graph (own).
#[derive(Clone, Copy, Debug, PartialEq, Eq, Error)]
pub enum UpkeepFault {
    /// The query weighs more than 512.
    #[error("the plan is too large")]
    PlanTooLarge,
    /// A row would count more than 2^62 - 1.
    #[error("too many rows")]
    TooManyRows,
    /// Out of memory.
    #[error("no memory")]
    NoMemory,
}

impl UpkeepFault {
    /// The number of the fault.
    pub fn code(&self) -> u16
        ensures { result ≡ code_of self.now }
    {
        match self {
            UpkeepFault::PlanTooLarge => 67,
            UpkeepFault::TooManyRows => 69,
            UpkeepFault::NoMemory => 90,
        }
    }

    /// The byte offset that the fault points at: there is none.
    pub fn at(&self) -> Option<usize>
        ensures { result ≡ None }
    {
        None
    }
}

impl From<PlanFault> for UpkeepFault {
    ghost from_gives = { λ planned fault. fault ≡ of_plan planned };

    fn from(planned: PlanFault) -> UpkeepFault {
        match planned {
            PlanFault::PlanTooLarge => UpkeepFault::PlanTooLarge,
            PlanFault::NoMemory => UpkeepFault::NoMemory,
        }
    }
}

impl From<MemoryFault> for UpkeepFault {
    ghost from_gives = { λ kept fault. fault ≡ of_memory kept };

    fn from(kept: MemoryFault) -> UpkeepFault {
        match kept {
            MemoryFault::TooManyRows => UpkeepFault::TooManyRows,
            MemoryFault::NoMemory => UpkeepFault::NoMemory,
        }
    }
}

impl From<Fault> for UpkeepFault {
    ghost from_gives = { λ _ fault. fault ≡ NoMemory };

    fn from(_fault: Fault) -> UpkeepFault {
        UpkeepFault::NoMemory
    }
}

impl From<AllocError> for UpkeepFault {
    ghost from_gives = { λ _ fault. fault ≡ NoMemory };

    fn from(_error: AllocError) -> UpkeepFault {
        UpkeepFault::NoMemory
    }
}

impl<T: Drop> From<AllocFailed<T>> for UpkeepFault {
    ghost from_gives = { λ _ fault. fault ≡ NoMemory };

    fn from(_failed: AllocFailed<T>) -> UpkeepFault {
        UpkeepFault::NoMemory
    }
}
