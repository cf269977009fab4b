//! Why a memory refused a call.

ghost use Rattle.std.specs.Prelude.{◌≡◌, None};
ghost use Rattle.cy_network_memory.specs.declared.faults.MemoryFault.TheVariants.{NoMemory};
ghost use Rattle.cy_network_memory.specs.Faults.{code_of};

use cy_values::Fault;
use std::alloc::{AllocError, AllocFailed};
use thiserror::Error;

/// Why a memory refused a call. What it holds is as before.
#[derive(Clone, Copy, Debug, PartialEq, Eq, Error)]
pub enum MemoryFault {
    /// A row would count more than 2^62 - 1.
    #[error("too many rows")]
    TooManyRows,
    /// Out of memory.
    #[error("no memory")]
    NoMemory,
}

impl MemoryFault {
    /// The number of the fault: 69 for `TooManyRows`, 90 for `NoMemory`.
    pub fn code(&self) -> u16
        ensures { result ≡ code_of self.now }
    {
        match self {
            MemoryFault::TooManyRows => 69,
            MemoryFault::NoMemory => 90,
        }
    }

    /// The byte offset that the fault points at: there is none.
    pub fn at(&self) -> Option<usize>
        ensures { result ≡ None }
    {
        None
    }
}

impl From<AllocError> for MemoryFault {
    ghost from_gives = { λ _ fault. fault ≡ NoMemory };

    fn from(_error: AllocError) -> MemoryFault {
        MemoryFault::NoMemory
    }
}

impl<T: Drop> From<AllocFailed<T>> for MemoryFault {
    ghost from_gives = { λ _ fault. fault ≡ NoMemory };

    fn from(_failed: AllocFailed<T>) -> MemoryFault {
        MemoryFault::NoMemory
    }
}

impl From<Fault> for MemoryFault {
    ghost from_gives = { λ _ fault. fault ≡ NoMemory };

    fn from(_fault: Fault) -> MemoryFault {
        MemoryFault::NoMemory
    }
}
