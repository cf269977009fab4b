//! The text of statements.

ghost use Rattle.std.specs.Prelude.{◌≡◌, ◌++◌, MatchResult, OnOk, map, string_bytes};
ghost use Rattle.cy_values.specs.declared.faults.Fault.TheVariants.{NoMemory};
ghost use Rattle.cy_trees.specs.Show as shown;
ghost use Rattle.cy_trees.specs.Show.{pieces_text};
ghost use Rattle.cy_trees.specs.TreeModels.{statement_of};
ghost use Rattle.cy_trees.specs.TreeModels as tree;
ghost use Rattle.cy_trees.specs.internal.Separators.{separator_pieces};

use crate::clauses::{Clause, Query, Statement};
use crate::writing::{Separator, Show, write_separated};
use cy_values::{Fault, Text};
use std::alloc::{AllocError, Global};

impl Show for Query {
    ghost pieces = { λ q. shown.query_pieces (tree.query_of q) };

    fn write(&self, text: &mut String) -> Result<(), AllocError> {
        write_clauses(text, &self.clauses)
    }
}

#[tactic(auto, using(crate::proofs::ShowLemmas::clauses_fused))]
fn write_clauses(text: &mut String, clauses: &[Clause]) -> Result<(), AllocError>
    ensures { OnOk result (string_bytes text.new ≡ string_bytes text.old ++ pieces_text (shown.query_pieces (record { clauses = map tree.clause_of clauses.now }))) }
{
    write_separated(text, Separator::Space, clauses)
}

/// What stands between two queries.
fn union_of(all: bool) -> Separator
    ensures { separator_pieces result ≡ shown.union_pieces all }
{
    if all {
        Separator::UnionAll
    } else {
        Separator::Union
    }
}

/// The text of a statement (own): with single spaces, keywords in capitals, names in backticks,
/// texts in single quotes, each item with its column, and brackets around each operator. Fails only when out of memory.
#[tactic(auto, using(crate::proofs::ShowLemmas::queries_fused), unfolding(crate::specs::Show::show))]
pub fn show(alloc: Global, statement: &Statement) -> Result<Text, Fault>
    ensures { MatchResult result (λ text. text ≡ shown.show (statement_of statement.now)) (λ fault. fault ≡ NoMemory) }
{
    let mut text = String::new(alloc);
    write_separated(&mut text, union_of(statement.all), &statement.queries)?;
    Ok(Text::new(text)?)
}
