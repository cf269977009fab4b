//! The one fault of this crate.

ghost use Rattle.std.specs.Prelude.{◌≡◌, None};
ghost use Rattle.cy_values.specs.declared.faults.Fault.TheVariants.{NoMemory};

use std::alloc::{AllocError, AllocFailed};
use thiserror::Error;

/// Why a value was not copied.
#[derive(Clone, Copy, Debug, PartialEq, Eq, Error)]
pub enum Fault {
    /// Out of memory.
    #[error("no memory")]
    NoMemory,
}

impl Fault {
    /// The number of the fault, 90.
    pub fn code(&self) -> u16
        ensures { result ≡ 90 }
    {
        90
    }

    /// The byte offset that the fault points at: there is none.
    pub fn at(&self) -> Option<usize>
        ensures { result ≡ None }
    {
        None
    }
}

impl From<AllocError> for Fault {
    ghost from_gives = { λ _ fault. fault ≡ NoMemory };

    fn from(_error: AllocError) -> Fault {
        Fault::NoMemory
    }
}

impl<T: Drop> From<AllocFailed<T>> for Fault {
    ghost from_gives = { λ _ fault. fault ≡ NoMemory };

    fn from(_failed: AllocFailed<T>) -> Fault {
        Fault::NoMemory
    }
}
