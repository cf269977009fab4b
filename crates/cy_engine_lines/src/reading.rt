//! From the tokens of a statement to a checked statement.

ghost use Rattle.cy_trees.specs.TreeModels.{statement_of};
ghost use Rattle.cy_engine_lines.specs.Verdicts.{query_verdict, scope_verdict};
ghost use Rattle.cy_engine_lines.specs.internal.Stages.{Gives};

use crate::faults::Fault;
use cy_lexer::Token;
use cy_parser::parse;
use cy_scope::{Checked, ViewQuery, check, check_view};
use std::alloc::Global;

/// The statement that the tokens spell, checked.
pub(crate) fn read_statement(alloc: Global, line: &str, tokens: &[Token]) -> Result<Checked, Fault>
    ensures { Gives (λ checked. statement_of checked) scope_verdict line.now tokens.now result }
{
    let tree = parse(alloc, tokens, line)?;
    Ok(check(alloc, tree)?)
}

/// The query of a view that the tokens spell.
pub(crate) fn read_query(alloc: Global, line: &str, tokens: &[Token]) -> Result<ViewQuery, Fault>
    ensures { Gives (λ query. statement_of query) query_verdict line.now tokens.now result }
{
    let checked = read_statement(alloc, line, tokens)?;
    Ok(check_view(alloc, checked)?)
}
