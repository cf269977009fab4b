//! Why a line was refused.

ghost use Rattle.std.specs.Prelude.{◌≡◌};
ghost use Rattle.cy_engine_lines.specs.Faults.{code_of, offset_of, of_evaluation, of_graph, of_index, of_lexer, of_parser, of_scope, of_update, of_upkeep, of_view};
ghost use Rattle.cy_engine_lines.specs.declared.faults.Fault.TheVariants.{NoMemory};

use cy_engine_views::UpkeepFault;
use cy_expr::EvalFault;
use cy_graph::GraphFault;
use cy_index::IndexFault;
use cy_lexer::LexFault;
use cy_parser::ParseFault;
use cy_scope_kinds::{ScopeFault, ViewFault};
use cy_updates_meaning::UpdateFault;
use std::alloc::{AllocError, AllocFailed};
use thiserror::Error;

/// Why a line was refused (own). The engine is as it was before the line.
#[derive(Clone, Copy, Debug, PartialEq, Eq, Error)]
pub enum Fault {
    /// The line isn't made of tokens.
    #[error("{0}")]
    Lex(LexFault),
    /// Its tokens spell no statement.
    #[error("{0}")]
    Parse(ParseFault),
    /// Its statement has no meaning.
    #[error("{0}")]
    Scope(ScopeFault),
    /// Its query can't be a view's.
    #[error("{0}")]
    View(ViewFault),
    /// It can't be executed on the graph.
    #[error("{0}")]
    Update(UpdateFault),
    /// The tick is the last, 2^62 - 1.
    #[error("no tick is left")]
    Full,
    #[error("a view has this name")]
    ViewNameTaken,
    #[error("no view has this name")]
    NoSuchView,
    /// The query of a view weighs more than 512.
    #[error("the plan is too large")]
    PlanTooLarge,
    /// There are 256 views.
    #[error("too many views")]
    TooManyViews,
    /// A row of a part of a view's plan would count more than 2^62 - 1.
    #[error("too many rows")]
    TooManyRows,
    /// The word of a command is missing, quoted or no command's.
    #[error("unknown command")]
    UnknownCommand,
    /// There is an index for this label and this key.
    #[error("the index is there")]
    IndexThere,
    /// An argument of a command is missing or wrong, or there is one too many.
    #[error("bad argument")]
    BadArgument,
    /// The tick of `:since` is above the current one.
    #[error("the tick is above the current one")]
    FutureTick,
    /// Out of memory.
    #[error("no memory")]
    NoMemory,
}

impl Fault {
    /// The number of the fault, by which its users know it.
    pub fn code(&self) -> u16
        ensures { result ≡ code_of self.now }
    {
        match self {
            Fault::Lex(fault) => fault.code(),
            Fault::Parse(fault) => fault.code(),
            Fault::Scope(fault) => fault.code(),
            Fault::View(fault) => fault.code(),
            Fault::Update(fault) => fault.code(),
            Fault::Full => 53,
            Fault::ViewNameTaken => 60,
            Fault::NoSuchView => 61,
            Fault::PlanTooLarge => 67,
            Fault::TooManyViews => 68,
            Fault::TooManyRows => 69,
            Fault::UnknownCommand => 70,
            Fault::IndexThere => 71,
            Fault::BadArgument => 72,
            Fault::FutureTick => 73,
            Fault::NoMemory => 90,
        }
    }

    /// The byte offset in the line that the fault points at, if it points at one.
    pub fn at(&self) -> Option<usize>
        ensures { result ≡ offset_of self.now }
    {
        match self {
            Fault::Lex(fault) => fault.at(),
            Fault::Parse(fault) => fault.at(),
            _ => None,
        }
    }
}

impl From<AllocError> for Fault {
    ghost from_gives = { λ _ fault. fault ≡ NoMemory };

    fn from(_error: AllocError) -> Fault {
        Fault::NoMemory
    }
}

impl<T: Drop> From<AllocFailed<T>> for Fault {
    ghost from_gives = { λ _ fault. fault ≡ NoMemory };

    fn from(_failed: AllocFailed<T>) -> Fault {
        Fault::NoMemory
    }
}

impl From<LexFault> for Fault {
    ghost from_gives = { λ lexed fault. fault ≡ of_lexer lexed };

    fn from(lexed: LexFault) -> Fault {
        match lexed {
            LexFault::NoMemory => Fault::NoMemory,
            _ => Fault::Lex(lexed),
        }
    }
}

impl From<ParseFault> for Fault {
    ghost from_gives = { λ parsed fault. fault ≡ of_parser parsed };

    fn from(parsed: ParseFault) -> Fault {
        match parsed {
            ParseFault::NoMemory => Fault::NoMemory,
            _ => Fault::Parse(parsed),
        }
    }
}

impl From<ScopeFault> for Fault {
    ghost from_gives = { λ checked fault. fault ≡ of_scope checked };

    fn from(checked: ScopeFault) -> Fault {
        match checked {
            ScopeFault::NoMemory => Fault::NoMemory,
            _ => Fault::Scope(checked),
        }
    }
}

impl From<ViewFault> for Fault {
    ghost from_gives = { λ tested fault. fault ≡ of_view tested };

    fn from(tested: ViewFault) -> Fault {
        match tested {
            ViewFault::NoMemory => Fault::NoMemory,
            _ => Fault::View(tested),
        }
    }
}

impl From<UpdateFault> for Fault {
    ghost from_gives = { λ refused fault. fault ≡ of_update refused };

    fn from(refused: UpdateFault) -> Fault {
        match refused {
            UpdateFault::NoMemory => Fault::NoMemory,
            _ => Fault::Update(refused),
        }
    }
}

impl From<EvalFault> for Fault {
    ghost from_gives = { λ evaluated fault. fault ≡ of_evaluation evaluated };

    fn from(evaluated: EvalFault) -> Fault {
        Fault::from(UpdateFault::from(evaluated))
    }
}

impl From<GraphFault> for Fault {
    ghost from_gives = { λ refused fault. fault ≡ of_graph refused };

    fn from(refused: GraphFault) -> Fault {
        Fault::from(UpdateFault::from(refused))
    }
}

impl From<IndexFault> for Fault {
    ghost from_gives = { λ refused fault. fault ≡ of_index refused };

    fn from(refused: IndexFault) -> Fault {
        match refused {
            IndexFault::IndexThere => Fault::IndexThere,
            IndexFault::NoMemory => Fault::NoMemory,
        }
    }
}

impl From<cy_values::Fault> for Fault {
    ghost from_gives = { λ _ fault. fault ≡ NoMemory };

    fn from(_fault: cy_values::Fault) -> Fault {
        Fault::NoMemory
    }
}

impl From<UpkeepFault> for Fault {
    ghost from_gives = { λ refused fault. fault ≡ of_upkeep refused };

    fn from(refused: UpkeepFault) -> Fault {
        match refused {
            UpkeepFault::PlanTooLarge => Fault::PlanTooLarge,
            UpkeepFault::TooManyRows => Fault::TooManyRows,
            UpkeepFault::NoMemory => Fault::NoMemory,
        }
    }
}
