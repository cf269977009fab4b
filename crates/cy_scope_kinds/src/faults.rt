//! The faults of statements and of view queries.

ghost use Rattle.std.specs.Prelude.{◌≡◌, None};
ghost use Rattle.cy_scope_kinds.specs.declared.faults.ViewFault.TheVariants.{NoMemory};
ghost use Rattle.cy_scope_kinds.specs.declared.faults.ScopeFault.TheVariants as scope_fault;
ghost use Rattle.cy_scope_kinds.specs.Faults.{scope_code, view_code};

use std::alloc::AllocError;
use thiserror::Error;

/// Why a statement has no meaning (own).
#[derive(Clone, Copy, Debug, PartialEq, Eq, Error)]
pub enum ScopeFault {
    /// A variable that isn't bound.
    #[error("unknown variable")]
    UnknownVariable,
    /// A name that is bound already, where it has to be new.
    #[error("already bound")]
    AlreadyBound,
    /// A value of a kind that its place doesn't take.
    #[error("wrong kind")]
    WrongKind,
    /// An item of WITH that is no variable and has no AS.
    #[error("missing alias")]
    MissingAlias,
    /// A second column with the same name, or a query of a UNION with other columns than the first one.
    #[error("duplicate column")]
    DuplicateColumn,
    /// An aggregate that is no whole item.
    #[error("aggregate here")]
    AggregateHere,
    /// An unknown function.
    #[error("unknown function")]
    UnknownFunction,
    /// A call whose arguments don't fit its function.
    #[error("wrong arguments")]
    WrongArguments,
    /// A second relationship with the same name.
    #[error("repeated relationship")]
    RepeatedRelationship,
    /// A relationship to create without one direction or one type, or with a length.
    #[error("bad create")]
    BadCreate,
    /// Out of memory.
    #[error("no memory")]
    NoMemory,
}

impl ScopeFault {
    /// The number of the fault.
    pub fn code(&self) -> u16
        ensures { result ≡ scope_code self.now }
    {
        match self {
            ScopeFault::UnknownVariable => 30,
            ScopeFault::AlreadyBound => 31,
            ScopeFault::WrongKind => 32,
            ScopeFault::MissingAlias => 33,
            ScopeFault::DuplicateColumn => 34,
            ScopeFault::AggregateHere => 35,
            ScopeFault::UnknownFunction => 36,
            ScopeFault::WrongArguments => 37,
            ScopeFault::RepeatedRelationship => 38,
            ScopeFault::BadCreate => 39,
            ScopeFault::NoMemory => 90,
        }
    }

    /// No fault of a statement has a place in the line.
    pub fn at(&self) -> Option<usize>
        ensures { result ≡ None }
    {
        None
    }
}

impl From<AllocError> for ScopeFault {
    ghost from_gives = { λ _ fault. fault ≡ scope_fault.NoMemory };

    fn from(_error: AllocError) -> ScopeFault {
        ScopeFault::NoMemory
    }
}

/// Why a statement is no query of a view (own).
#[derive(Clone, Copy, Debug, PartialEq, Eq, Error)]
pub enum ViewFault {
    /// It doesn't end with RETURN, or it updates the graph.
    #[error("not a reading")]
    NotAReading,
    /// It has UNWIND, or an expression that may fault.
    #[error("may fail")]
    MayFail,
    /// A length has no upper bound, or one that is too large.
    #[error("unbounded")]
    Unbounded,
    /// It has an aggregate.
    #[error("aggregate in a view")]
    AggregateInView,
    /// It has ORDER BY, SKIP or LIMIT.
    #[error("order in a view")]
    OrderInView,
    /// Out of memory.
    #[error("no memory")]
    NoMemory,
}

impl ViewFault {
    /// The number of the fault.
    pub fn code(&self) -> u16
        ensures { result ≡ view_code self.now }
    {
        match self {
            ViewFault::NotAReading => 62,
            ViewFault::MayFail => 63,
            ViewFault::Unbounded => 64,
            ViewFault::AggregateInView => 65,
            ViewFault::OrderInView => 66,
            ViewFault::NoMemory => 90,
        }
    }

    /// No fault of a view's query has a place in the line.
    pub fn at(&self) -> Option<usize>
        ensures { result ≡ None }
    {
        None
    }
}

impl From<AllocError> for ViewFault {
    ghost from_gives = { λ _ fault. fault ≡ NoMemory };

    fn from(_error: AllocError) -> ViewFault {
        ViewFault::NoMemory
    }
}
