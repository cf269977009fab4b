//! From a line to the plan of its query.

use cy_lexer::{LexFault, lex, text_of};
use cy_parser::{ParseFault, parse};
use cy_planner::{PlanFault, plan, weight_of};
use cy_planner_algebra::Plan;
use cy_scope::{check, check_view};
use cy_scope_kinds::{ScopeFault, ViewFault};
use std::alloc::Global;
use thiserror::Error;

/// What a line asks for.
#[derive(Drop)]
pub(crate) enum Explained {
    /// A line without tokens asks for nothing.
    Nothing,
    /// The line has the query of a view: what it weighs, and its plan.
    Query {
        weight: u64,
        plan: Result<Plan, PlanFault>,
    },
}

/// Why a line has no query of a view.
#[derive(Debug, Drop, Error)]
pub(crate) enum ExplainFault {
    /// The line is too long or no UTF-8, or has something that begins no token.
    #[error("{0}")]
    Lexing(LexFault),
    /// The tokens are no statement.
    #[error("{0}")]
    Parsing(ParseFault),
    /// The statement has no meaning.
    #[error("{0}")]
    Scope(ScopeFault),
    /// The statement can't be a view's query.
    #[error("{0}")]
    View(ViewFault),
}

impl ExplainFault {
    /// The number of the fault.
    pub(crate) fn code(&self) -> u16 {
        match self {
            ExplainFault::Lexing(fault) => fault.code(),
            ExplainFault::Parsing(fault) => fault.code(),
            ExplainFault::Scope(fault) => fault.code(),
            ExplainFault::View(fault) => fault.code(),
        }
    }
}

/// The query of a view that stands on a line, with its weight and its plan.
pub(crate) fn explain(alloc: Global, bytes: &[u8]) -> Result<Explained, ExplainFault> {
    let line = text_of(bytes).map_err(ExplainFault::Lexing)?;
    let tokens = lex(alloc, line).map_err(ExplainFault::Lexing)?;
    if tokens.is_empty() {
        return Ok(Explained::Nothing);
    }
    let statement = parse(alloc, tokens.as_slice(), line).map_err(ExplainFault::Parsing)?;
    let checked = check(alloc, statement).map_err(ExplainFault::Scope)?;
    let query = check_view(alloc, checked).map_err(ExplainFault::View)?;
    Ok(Explained::Query {
        weight: weight_of(&query),
        plan: plan(alloc, &query),
    })
}
