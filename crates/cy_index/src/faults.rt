//! Why an index was not added.

ghost use Rattle.std.specs.Prelude.{◌≡◌, None};
ghost use Rattle.cy_index.specs.declared.faults.IndexFault.TheVariants.{NoMemory};
ghost use Rattle.cy_index.specs.Faults.{code_of};

use cy_values::Fault;
use std::alloc::{AllocError, AllocFailed};
use thiserror::Error;

/// Why an index was not added. The store is as it was before the call.
#[derive(Clone, Copy, Debug, PartialEq, Eq, Error)]
pub enum IndexFault {
    /// There is one for this label and this key.
    #[error("the index is there")]
    IndexThere,
    /// Out of memory.
    #[error("no memory")]
    NoMemory,
}

impl IndexFault {
    /// The number of the fault: 71 for `IndexThere`, 90 for `NoMemory`.
    pub fn code(&self) -> u16
        ensures { result ≡ code_of self.now }
    {
        match self {
            IndexFault::IndexThere => 71,
            IndexFault::NoMemory => 90,
        }
    }

    /// The byte offset that the fault points at: there is none.
    pub fn at(&self) -> Option<usize>
        ensures { result ≡ None }
    {
        None
    }
}

impl From<AllocError> for IndexFault {
    ghost from_gives = { λ _ fault. fault ≡ NoMemory };

    fn from(_error: AllocError) -> IndexFault {
        IndexFault::NoMemory
    }
}

impl<T: Drop> From<AllocFailed<T>> for IndexFault {
    ghost from_gives = { λ _ fault. fault ≡ NoMemory };

    fn from(_failed: AllocFailed<T>) -> IndexFault {
        IndexFault::NoMemory
    }
}

impl From<Fault> for IndexFault {
    ghost from_gives = { λ _ fault. fault ≡ NoMemory };

    fn from(_fault: Fault) -> IndexFault {
        IndexFault::NoMemory
    }
}
