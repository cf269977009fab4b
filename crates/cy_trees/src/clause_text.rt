//! The text of clauses.

ghost use Rattle.std.specs.Prelude.{◌≡◌, ◌++◌, ◌∷◌, [], OnOk, string_bytes, map};
ghost use Rattle.cy_lexer.specs.declared.keywords.Keyword.TheVariants as keyword;
ghost use Rattle.cy_trees.specs.Show as shown;
ghost use Rattle.cy_trees.specs.Show.{pieces_text};
ghost use Rattle.cy_trees.specs.Trees as trees;
ghost use Rattle.cy_trees.specs.TreeModels as tree;

use crate::clauses::{
    Clause, Item, Key, Match, Path, PathTest, Projection, RemoveItem, SetItem, Where,
};
use crate::quoting::write_name;
use crate::showing::{write_expression, write_labels};
use crate::writing::{Separator, Show, write_each, write_separated};
use std::alloc::AllocError;

/// Writes AS and the name after it.
fn write_alias(text: &mut String, name: &str) -> Result<(), AllocError>
    ensures { OnOk result (string_bytes text.new ≡ string_bytes text.old ++ pieces_text (shown.space ∷ shown.says keyword.As ∷ shown.space ∷ shown.named name.now ∷ [])) }
{
    text.push_str(" AS ")?;
    write_name(text, name)
}

impl Show for Item {
    ghost pieces = { λ i. shown.item_pieces (tree.item_of i) };

    fn write(&self, text: &mut String) -> Result<(), AllocError> {
        write_expression(text, &self.expression)?;
        write_alias(text, self.column.as_str())
    }
}

impl Show for Key {
    ghost pieces = { λ k. shown.key_pieces (tree.key_of k) };

    fn write(&self, text: &mut String) -> Result<(), AllocError> {
        write_expression(text, &self.expression)?;
        text.push_str(if self.descending { " DESC" } else { "" })
    }
}

impl Show for SetItem {
    ghost pieces = { λ i. shown.set_item_pieces (tree.set_item_of i) };

    fn write(&self, text: &mut String) -> Result<(), AllocError> {
        match self {
            SetItem::Property(variable, key, value) => {
                variable.write(text)?;
                text.push('.')?;
                write_name(text, key.as_str())?;
                text.push_str(" = ")?;
                write_expression(text, value)
            }
            SetItem::Labels(variable, labels) => {
                variable.write(text)?;
                write_labels(text, labels)
            }
        }
    }
}

impl Show for RemoveItem {
    ghost pieces = { λ i. shown.remove_item_pieces (tree.remove_item_of i) };

    fn write(&self, text: &mut String) -> Result<(), AllocError> {
        match self {
            RemoveItem::Property(variable, key) => {
                variable.write(text)?;
                text.push('.')?;
                write_name(text, key.as_str())
            }
            RemoveItem::Labels(variable, labels) => {
                variable.write(text)?;
                write_labels(text, labels)
            }
        }
    }
}

impl Show for PathTest {
    ghost pieces = { λ t. shown.path_test_pieces (tree.path_test_of t) };

    fn write(&self, text: &mut String) -> Result<(), AllocError> {
        if !self.denied {
            return self.path.write(text);
        }
        text.push_str("NOT (")?;
        self.path.write(text)?;
        text.push(')')
    }
}

/// Writes paths as conditions, each after AND.
#[tactic(auto, using(crate::proofs::ShowLemmas::path_tests_fused))]
fn write_further_tests(text: &mut String, tests: &[PathTest]) -> Result<(), AllocError>
    ensures { OnOk result (string_bytes text.new ≡ string_bytes text.old ++ pieces_text (shown.each_after shown.and_pieces (map shown.path_test_pieces (map tree.path_test_of tests.now)))) }
{
    write_each(text, Separator::And, tests)
}

/// Writes paths as conditions with AND between each two.
#[tactic(auto, using(crate::proofs::ShowLemmas::path_tests_fused))]
fn write_tests(text: &mut String, tests: &[PathTest]) -> Result<(), AllocError>
    ensures { OnOk result (string_bytes text.new ≡ string_bytes text.old ++ pieces_text (shown.separated shown.and_pieces (map shown.path_test_pieces (map tree.path_test_of tests.now)))) }
{
    write_separated(text, Separator::And, tests)
}

/// Writes a WHERE, if there is one.
#[tactic(auto, using(crate::proofs::ShowLemmas::where_some))]
fn write_filter(text: &mut String, filter: &Where) -> Result<(), AllocError>
    ensures { OnOk result (string_bytes text.new ≡ string_bytes text.old ++ pieces_text (shown.filter_pieces (tree.where_of filter.now))) }
{
    if let Some(test) = &filter.test {
        text.push_str(" WHERE ")?;
        write_expression(text, test)?;
        return write_further_tests(text, &filter.paths);
    }
    if filter.paths.is_empty() {
        return Ok(());
    }
    text.push_str(" WHERE ")?;
    write_tests(text, &filter.paths)
}

#[tactic(auto, using(crate::proofs::ShowLemmas::keys_fused))]
fn write_keys(text: &mut String, keys: &[Key]) -> Result<(), AllocError>
    ensures { OnOk result (string_bytes text.new ≡ string_bytes text.old ++ pieces_text (shown.list_pieces (map shown.key_pieces (map tree.key_of keys.now)))) }
{
    write_separated(text, Separator::Comma, keys)
}

/// Writes the keys of an ORDER BY, if there are any.
#[tactic(auto, using(crate::proofs::ShowLemmas::order_some))]
fn write_order(text: &mut String, keys: &[Key]) -> Result<(), AllocError>
    ensures { OnOk result (string_bytes text.new ≡ string_bytes text.old ++ pieces_text (shown.order_pieces (map tree.key_of keys.now))) }
{
    if keys.is_empty() {
        return Ok(());
    }
    text.push_str(" ORDER BY ")?;
    write_keys(text, keys)
}

/// Writes a SKIP, if there is one.
fn write_skip(text: &mut String, skip: Option<u64>) -> Result<(), AllocError>
    ensures { OnOk result (string_bytes text.new ≡ string_bytes text.old ++ pieces_text (shown.count_pieces keyword.Skip skip)) }
{
    match skip {
        Some(rows) => write!(text, " SKIP {rows}"),
        None => Ok(()),
    }
}

/// Writes a LIMIT, if there is one.
fn write_limit(text: &mut String, limit: Option<u64>) -> Result<(), AllocError>
    ensures { OnOk result (string_bytes text.new ≡ string_bytes text.old ++ pieces_text (shown.count_pieces keyword.Limit limit)) }
{
    match limit {
        Some(rows) => write!(text, " LIMIT {rows}"),
        None => Ok(()),
    }
}

#[tactic(auto, using(crate::proofs::ShowLemmas::items_fused))]
fn write_items(text: &mut String, items: &[Item]) -> Result<(), AllocError>
    ensures { OnOk result (string_bytes text.new ≡ string_bytes text.old ++ pieces_text (shown.list_pieces (map shown.item_pieces (map tree.item_of items.now)))) }
{
    write_separated(text, Separator::Comma, items)
}

fn write_projection(text: &mut String, projection: &Projection) -> Result<(), AllocError>
    ensures { OnOk result (string_bytes text.new ≡ string_bytes text.old ++ pieces_text (shown.projection_pieces (tree.projection_of projection.now))) }
{
    text.push_str(if projection.distinct { "DISTINCT " } else { "" })?;
    write_items(text, &projection.items)?;
    write_order(text, &projection.order)?;
    write_skip(text, projection.skip)?;
    write_limit(text, projection.limit)
}

#[tactic(auto, using(crate::proofs::ShowLemmas::paths_fused))]
fn write_paths(text: &mut String, paths: &[Path]) -> Result<(), AllocError>
    ensures { OnOk result (string_bytes text.new ≡ string_bytes text.old ++ pieces_text (shown.paths_pieces (map tree.path_of paths.now))) }
{
    write_separated(text, Separator::Comma, paths)
}

#[tactic(auto, using(crate::proofs::ShowLemmas::set_items_fused))]
fn write_set_items(text: &mut String, items: &[SetItem]) -> Result<(), AllocError>
    ensures { OnOk result (string_bytes text.new ≡ string_bytes text.old ++ pieces_text (shown.list_pieces (map shown.set_item_pieces (map tree.set_item_of items.now)))) }
{
    write_separated(text, Separator::Comma, items)
}

#[tactic(auto, using(crate::proofs::ShowLemmas::remove_items_fused))]
fn write_remove_items(text: &mut String, items: &[RemoveItem]) -> Result<(), AllocError>
    ensures { OnOk result (string_bytes text.new ≡ string_bytes text.old ++ pieces_text (shown.list_pieces (map shown.remove_item_pieces (map tree.remove_item_of items.now)))) }
{
    write_separated(text, Separator::Comma, items)
}

impl Show for Clause {
    ghost pieces = { λ c. shown.clause_pieces (tree.clause_of c) };

    fn write(&self, text: &mut String) -> Result<(), AllocError> {
        match self {
            Clause::Match(it) => write_match(text, it),
            Clause::Unwind(it) => {
                text.push_str("UNWIND ")?;
                write_expression(text, &it.list)?;
                write_alias(text, it.variable.name.as_str())
            }
            Clause::With(it) => {
                text.push_str("WITH ")?;
                write_projection(text, &it.projection)?;
                write_filter(text, &it.filter)
            }
            Clause::Return(projection) => {
                text.push_str("RETURN ")?;
                write_projection(text, projection)
            }
            Clause::Create(paths) => {
                text.push_str("CREATE ")?;
                write_paths(text, paths)
            }
            Clause::Set(items) => {
                text.push_str("SET ")?;
                write_set_items(text, items)
            }
            Clause::Remove(items) => {
                text.push_str("REMOVE ")?;
                write_remove_items(text, items)
            }
            Clause::Delete(it) => {
                text.push_str(if it.detach {
                    "DETACH DELETE "
                } else {
                    "DELETE "
                })?;
                write_separated(text, Separator::Comma, &it.variables)
            }
        }
    }
}

fn write_match(text: &mut String, it: &Match) -> Result<(), AllocError>
    ensures { OnOk result (string_bytes text.new ≡ string_bytes text.old ++ pieces_text (shown.clause_pieces (trees.«match» it.now.optional (tree.paths_of it.now.paths) (tree.where_of it.now.filter)))) }
{
    text.push_str(if it.optional {
        "OPTIONAL MATCH "
    } else {
        "MATCH "
    })?;
    write_paths(text, &it.paths)?;
    write_filter(text, &it.filter)
}
