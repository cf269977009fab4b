//! Which cells UNWIND carries along: those that the clauses after it read.

ghost use Rattle.std.specs.Prelude.{◌≡◌, ◌⊎◌, ◌≤◌, ℕ, [], IfOk, IfSome, OnOk, flat_map, length, map, option_map, slice_get, true, false};
ghost use Rattle.std.specs.List.{AllByRecursion};
ghost use Rattle.cy_trees.specs.TreeModels.{clause_of, entry_of, expression_of, item_of, path_of, path_test_of, projection_of, remove_item_of, set_item_of, step_of, where_of};
ghost use Rattle.cy_oneshot_outcomes.specs.Columns.{columns_read};
ghost use Rattle.cy_oneshot_patterns.specs.Places.{path_places, places, step_places};
ghost use Rattle.cy_oneshot_patterns.specs.internal.Patterns.{place_of};
ghost use Rattle.cy_oneshot_projections.specs.SortKeys.{sort_key_of};
ghost use Rattle.cy_oneshot.specs.Carried as spec;
ghost use Rattle.cy_oneshot.specs.Carried.{AreEntriesRead, AreKeysRead, AreNeeded, ArePlacesRead, AreRead, AreSeen, IsClauseRead, IsEnough, IsKeyRead, IsPlaceRead, IsProjectionRead, IsRemoveRead, IsSeen, IsSetRead, IsTestRead, IsVariableRead, IsWhereRead, AreAlike, IsAlike, updates_ahead};
ghost use Rattle.cy_oneshot.specs.internal.Carried.{StillNeeded};

use cy_oneshot_outcomes::{cell_order, columns_read};
use cy_oneshot_patterns::Place;
use cy_oneshot_projections::{SortKey, sort_keys};
use cy_scope::is_update;
use cy_trees::{
    Clause, Expr, Item, MapEntry, Match, Path, PathTest, Projection, RemoveItem, SetItem, Step,
    Variable, Where,
};
use cy_values::{Cell, Fault, Row};
use std::alloc::Global;
use std::cmp::Ordering;

/// At most this many clauses after an UNWIND are looked at.
const CLAUSES_AHEAD: usize = 64;

/// Whether the cell at a place is needed; past the end of what is known each is.
pub(crate) fn is_needed(needed: &[bool], place: usize) -> bool
    ensures { result ≡ spec.is_needed needed.now place }
{
    match needed.get(place) {
        Some(flag) => *flag,
        None => true,
    }
}

/// Which of this many columns the clauses after a clause need, where these rows stand before it. After anything but UNWIND the list is
/// empty, and all are needed. Fails only when out of memory.
pub(crate) fn needed_after(
    alloc: Global,
    clause: &Clause,
    others: &[Clause],
    columns: usize,
    rows: &[Row],
) -> Result<Vec<bool>, Fault>
    ensures alike { IfOk result (λ needed. updates_ahead (map clause_of others.now) ≡ true → AreAlike needed.items rows.now) }
    ensures enough { IfOk result (λ needed. IsEnough (updates_ahead (map clause_of others.now)) needed.items (map clause_of others.now)) }
    ensures within { IfOk result (λ needed. length needed.items ≤ columns) }
{
    match clause {
        Clause::Unwind(_) => needed_by(alloc, others, columns, rows),
        Clause::Match(_)
        | Clause::With(_)
        | Clause::Return(_)
        | Clause::Create(_)
        | Clause::Set(_)
        | Clause::Remove(_)
        | Clause::Delete(_) => Ok(Vec::new(alloc)),
    }
}

// Which of this many columns clauses need, where these rows stand before UNWIND. A clause that updates takes rows in their order, so
// before one that does what tells rows apart is needed too. Where all are needed no clause after the first ones is looked at.
fn needed_by(
    alloc: Global,
    clauses: &[Clause],
    columns: usize,
    rows: &[Row],
) -> Result<Vec<bool>, Fault>
    ensures alike { IfOk result (λ needed. updates_ahead (map clause_of clauses.now) ≡ true → AreAlike needed.items rows.now) }
    ensures enough { IfOk result (λ needed. IsEnough (updates_ahead (map clause_of clauses.now)) needed.items (map clause_of clauses.now)) }
    ensures within { IfOk result (λ needed. length needed.items ≤ columns) }
{
    let mut needed = needed_ahead(alloc, clauses, columns, CLAUSES_AHEAD)?;
    if needed.is_empty() {
        return Ok(needed);
    }
    if !updates_ahead(clauses) {
        return Ok(needed);
    }
    mark_differences(&mut needed, rows);
    Ok(needed)
}

// Whether a clause updates before a WITH or RETURN comes.
fn updates_ahead(clauses: &[Clause]) -> bool
    ensures { result ≡ updates_ahead (map clause_of clauses.now) }
{
    for clause in clauses {
        if is_projection(clause) {
            return false;
        }
        if is_update(clause) {
            return true;
        }
    }
    false
}

// Marks the columns in which rows differ.
fn mark_differences(needed: &mut Vec<bool>, rows: &[Row])
    ensures alike { AreAlike needed.new.items rows.now }
    ensures still { StillNeeded needed.old.items needed.new.items }
{
    let Some((first, others)) = rows.split_first() else {
        return;
    };
    mark_others(needed, first.as_slice(), others);
}

// Marks the columns in which rows differ from one.
fn mark_others(needed: &mut Vec<bool>, first: &[Cell], rows: &[Row])
    ensures alike { AllByRecursion (IsAlike needed.new.items first.now) rows.now }
    ensures still { StillNeeded needed.old.items needed.new.items }
{
    for row in rows {
        mark_other(needed, first, row.as_slice());
    }
}

// Marks the columns in which a row differs from another one.
fn mark_other(needed: &mut Vec<bool>, first: &[Cell], row: &[Cell])
    ensures alike { IsAlike needed.new.items first.now row.now }
    ensures still { StillNeeded needed.old.items needed.new.items }
{
    for column in 0..needed.len() {
        mark_if_other(needed, first, row, column);
    }
}

// Marks a column, if a row differs there from another one.
fn mark_if_other(needed: &mut Vec<bool>, first: &[Cell], row: &[Cell], column: usize)
    ensures alike { spec.is_needed needed.new.items column ≡ false → slice_get row.now column ≡ slice_get first.now column }
    ensures still { StillNeeded needed.old.items needed.new.items }
{
    if is_needed(needed, column) || has_same(first, row, column) {
        return;
    }
    mark_one(needed, column);
}

// Whether two rows have the same cell at a place.
fn has_same(first: &[Cell], row: &[Cell], place: usize) -> bool
    ensures { result ≡ true → slice_get row.now place ≡ slice_get first.now place }
{
    match (first.get(place), row.get(place)) {
        (Some(cell), Some(other)) => cell_order(cell, other) == Ordering::Equal,
        _ => false,
    }
}

// Which of the first columns clauses need: what they read, up to a WITH or RETURN or an update at the end. Where neither is among the
// first of them, all are needed, and the list is empty. Rows that a clause updates have to be alike in what isn't needed.
fn needed_ahead(
    alloc: Global,
    clauses: &[Clause],
    width: usize,
    ahead: usize,
) -> Result<Vec<bool>, Fault>
    ensures enough { IfOk result (λ needed. IsEnough true needed.items (map clause_of clauses.now)) }
    ensures within { IfOk result (λ needed. length needed.items ≤ width) }
{
    let Some((clause, others)) = clauses.split_first() else {
        return Ok(Vec::new(alloc));
    };
    if ahead == 0 {
        return Ok(Vec::new(alloc));
    }
    if is_last(clause, others) {
        let none = vec![in alloc; false; width]?;
        return with_read(alloc, none, clause);
    }
    let needed = needed_ahead(alloc, others, width, ahead - 1)?;
    with_read(alloc, needed, clause)
}

// Whether nothing after a clause sees the row before it.
fn is_last(clause: &Clause, others: &[Clause]) -> bool
    ensures { result ≡ spec.is_last (clause_of clause.now) (map clause_of others.now) }
{
    is_projection(clause) || (others.is_empty() && is_update(clause))
}

// Whether it is WITH or RETURN.
fn is_projection(clause: &Clause) -> bool
    ensures { result ≡ spec.is_projection (clause_of clause.now) }
{
    matches!(clause, Clause::With(_) | Clause::Return(_))
}

// What is needed, with what a clause reads; all still is where all was.
fn with_read(alloc: Global, needed: Vec<bool>, clause: &Clause) -> Result<Vec<bool>, Fault>
    ensures read { IfOk result (λ after. (after.items ≡ []) ⊎ IsClauseRead after.items (clause_of clause.now)) }
    ensures still { IfOk result (λ after. StillNeeded needed.items after.items) }
{
    let mut needed = needed;
    if !needed.is_empty() {
        mark_clause(alloc, &mut needed, clause)?;
    }
    Ok(needed)
}

// Marks the columns that a clause reads.
fn mark_clause(alloc: Global, needed: &mut Vec<bool>, clause: &Clause) -> Result<(), Fault>
    ensures read { OnOk result (IsClauseRead needed.new.items (clause_of clause.now)) }
    ensures still { OnOk result (StillNeeded needed.old.items needed.new.items) }
{
    match clause {
        Clause::Match(clause) => mark_match(alloc, needed, clause),
        Clause::Unwind(clause) => mark_read(alloc, needed, &clause.list),
        Clause::With(clause) => mark_projection(alloc, needed, &clause.projection),
        Clause::Return(projection) => mark_projection(alloc, needed, projection),
        Clause::Create(paths) => mark_paths(alloc, needed, paths),
        Clause::Set(items) => mark_set(alloc, needed, items),
        Clause::Remove(items) => {
            mark_remove(needed, items);
            Ok(())
        }
        Clause::Delete(clause) => {
            mark_variables(needed, &clause.variables);
            Ok(())
        }
    }
}

// Marks the columns that MATCH reads.
fn mark_match(alloc: Global, needed: &mut Vec<bool>, clause: &Match) -> Result<(), Fault>
    ensures places { OnOk result (ArePlacesRead needed.new.items (places (map path_of clause.now.paths.items))) }
    ensures asked { OnOk result (IsWhereRead needed.new.items (where_of clause.now.filter)) }
    ensures still { OnOk result (StillNeeded needed.old.items needed.new.items) }
{
    mark_where(alloc, needed, &clause.filter)?;
    mark_paths(alloc, needed, &clause.paths)
}

// Marks the columns that a WHERE reads.
fn mark_where(alloc: Global, needed: &mut Vec<bool>, filter: &Where) -> Result<(), Fault>
    ensures read { OnOk result (IsWhereRead needed.new.items (where_of filter.now)) }
    ensures still { OnOk result (StillNeeded needed.old.items needed.new.items) }
{
    mark_test(alloc, needed, filter.test.as_ref())?;
    mark_path_tests(alloc, needed, &filter.paths)
}

// Marks the columns that paths as conditions read.
fn mark_path_tests(alloc: Global, needed: &mut Vec<bool>, tests: &[PathTest]) -> Result<(), Fault>
    ensures read { OnOk result (ArePlacesRead needed.new.items (places (map (λ t. t.path) (map path_test_of tests.now)))) }
    ensures still { OnOk result (StillNeeded needed.old.items needed.new.items) }
{
    for test in tests {
        mark_path(alloc, needed, &test.path)?;
    }
    Ok(())
}

// Marks the columns that a condition reads, if there is one.
fn mark_test(alloc: Global, needed: &mut Vec<bool>, test: Option<&Expr>) -> Result<(), Fault>
    ensures read { OnOk result (IsTestRead needed.new.items (option_map (λ e. expression_of e.now) test.entry)) }
    ensures still { OnOk result (StillNeeded needed.old.items needed.new.items) }
{
    match test {
        Some(condition) => mark_read(alloc, needed, condition),
        None => Ok(()),
    }
}

// Marks the columns that paths read: those of their variables, and those that their maps read.
fn mark_paths(alloc: Global, needed: &mut Vec<bool>, paths: &[Path]) -> Result<(), Fault>
    ensures read { OnOk result (ArePlacesRead needed.new.items (places (map path_of paths.now))) }
    ensures still { OnOk result (StillNeeded needed.old.items needed.new.items) }
{
    for path in paths {
        mark_path(alloc, needed, path)?;
    }
    Ok(())
}

/// Marks the columns that a path reads. Fails only when out of memory.
pub(crate) fn mark_path(alloc: Global, needed: &mut Vec<bool>, path: &Path) -> Result<(), Fault>
    ensures read { OnOk result (ArePlacesRead needed.new.items (path_places (path_of path.now))) }
    ensures still { OnOk result (StillNeeded needed.old.items needed.new.items) }
{
    mark_place(alloc, needed, Place::Node(&path.start))?;
    mark_steps(alloc, needed, &path.steps)
}

// Marks the columns that steps read.
fn mark_steps(alloc: Global, needed: &mut Vec<bool>, steps: &[Step]) -> Result<(), Fault>
    ensures read { OnOk result (ArePlacesRead needed.new.items (flat_map step_places (map step_of steps.now))) }
    ensures still { OnOk result (StillNeeded needed.old.items needed.new.items) }
{
    for step in steps {
        mark_step(alloc, needed, step)?;
    }
    Ok(())
}

// Marks the columns that a step reads.
fn mark_step(alloc: Global, needed: &mut Vec<bool>, step: &Step) -> Result<(), Fault>
    ensures read { OnOk result (ArePlacesRead needed.new.items (step_places (step_of step.now))) }
    ensures still { OnOk result (StillNeeded needed.old.items needed.new.items) }
{
    mark_place(alloc, needed, Place::Relationship(&step.relationship))?;
    mark_place(alloc, needed, Place::Node(&step.node))
}

// Marks the column of a place and those that its map reads.
fn mark_place(alloc: Global, needed: &mut Vec<bool>, place: Place<'_>) -> Result<(), Fault>
    ensures read { OnOk result (IsPlaceRead needed.new.items (place_of place.entry)) }
    ensures still { OnOk result (StillNeeded needed.old.items needed.new.items) }
{
    mark_column(needed, place.column());
    mark_entries(alloc, needed, place.entries())
}

// Marks a column, if there is one.
fn mark_column(needed: &mut Vec<bool>, column: Option<usize>)
    ensures marked { IfSome column (λ place. spec.is_needed needed.new.items place ≡ true) }
    ensures still { StillNeeded needed.old.items needed.new.items }
{
    if let Some(column) = column {
        mark_one(needed, column);
    }
}

// Marks the columns that the entries of a map read.
fn mark_entries(alloc: Global, needed: &mut Vec<bool>, entries: &[MapEntry]) -> Result<(), Fault>
    ensures read { OnOk result (AreEntriesRead needed.new.items (map entry_of entries.now)) }
    ensures still { OnOk result (StillNeeded needed.old.items needed.new.items) }
{
    for entry in entries {
        mark_read(alloc, needed, &entry.value)?;
    }
    Ok(())
}

// Marks the columns that a projection reads.
fn mark_projection(
    alloc: Global,
    needed: &mut Vec<bool>,
    projection: &Projection,
) -> Result<(), Fault>
    ensures read { OnOk result (IsProjectionRead needed.new.items (projection_of projection.now)) }
    ensures still { OnOk result (StillNeeded needed.old.items needed.new.items) }
{
    mark_items(alloc, needed, &projection.items)?;
    let keys = sort_keys(alloc, projection)?;
    mark_keys(alloc, needed, projection.items.len(), &keys)
}

// Marks the columns that items read.
fn mark_items(alloc: Global, needed: &mut Vec<bool>, items: &[Item]) -> Result<(), Fault>
    ensures read { OnOk result (AreRead needed.new.items (map item_of items.now)) }
    ensures still { OnOk result (StillNeeded needed.old.items needed.new.items) }
{
    for item in items {
        mark_read(alloc, needed, &item.expression)?;
    }
    Ok(())
}

// Marks the columns that keys read of the row before, which stand after those of this many items.
fn mark_keys(
    alloc: Global,
    needed: &mut Vec<bool>,
    count: usize,
    keys: &[SortKey<'_>],
) -> Result<(), Fault>
    ensures read { OnOk result (AreKeysRead needed.new.items count (map sort_key_of keys.now)) }
    ensures still { OnOk result (StillNeeded needed.old.items needed.new.items) }
{
    for key in keys {
        mark_key(alloc, needed, count, key)?;
    }
    Ok(())
}

// Marks the columns that one key reads of the row before. If it repeats an item, it is that item's column and reads nothing of that row.
fn mark_key(
    alloc: Global,
    needed: &mut Vec<bool>,
    count: usize,
    key: &SortKey<'_>,
) -> Result<(), Fault>
    ensures read { OnOk result (IsKeyRead needed.new.items count (sort_key_of key.now)) }
    ensures still { OnOk result (StillNeeded needed.old.items needed.new.items) }
{
    if key.place.is_some() {
        return Ok(());
    }
    let columns = columns_read(alloc, &key.key.expression)?;
    mark_seen(needed, count, &columns);
    Ok(())
}

// Marks those of the columns that stand after this many, counted from there.
fn mark_seen(needed: &mut Vec<bool>, count: usize, columns: &[usize])
    ensures read { AreSeen needed.new.items count columns.now }
    ensures still { StillNeeded needed.old.items needed.new.items }
{
    for column in columns {
        mark_if_after(needed, count, *column);
    }
}

// Marks a column that stands after this many, counted from there.
fn mark_if_after(needed: &mut Vec<bool>, count: usize, column: usize)
    ensures read { IsSeen needed.new.items count column }
    ensures still { StillNeeded needed.old.items needed.new.items }
{
    if column < count {
        return;
    }
    mark_one(needed, column - count);
}

// Marks the columns that the items of SET read.
fn mark_set(alloc: Global, needed: &mut Vec<bool>, items: &[SetItem]) -> Result<(), Fault>
    ensures read { OnOk result (AllByRecursion (IsSetRead needed.new.items) (map set_item_of items.now)) }
    ensures still { OnOk result (StillNeeded needed.old.items needed.new.items) }
{
    for item in items {
        mark_set_item(alloc, needed, item)?;
    }
    Ok(())
}

// Marks the columns that an item of SET reads.
fn mark_set_item(alloc: Global, needed: &mut Vec<bool>, item: &SetItem) -> Result<(), Fault>
    ensures read { OnOk result (IsSetRead needed.new.items (set_item_of item.now)) }
    ensures still { OnOk result (StillNeeded needed.old.items needed.new.items) }
{
    match item {
        SetItem::Property(variable, _, value) => {
            mark_variable(needed, variable);
            mark_read(alloc, needed, value)
        }
        SetItem::Labels(variable, _) => {
            mark_variable(needed, variable);
            Ok(())
        }
    }
}

// Marks the columns that the items of REMOVE read.
fn mark_remove(needed: &mut Vec<bool>, items: &[RemoveItem])
    ensures read { AllByRecursion (IsRemoveRead needed.new.items) (map remove_item_of items.now) }
    ensures still { StillNeeded needed.old.items needed.new.items }
{
    for item in items {
        mark_remove_item(needed, item);
    }
}

// Marks the column that an item of REMOVE reads.
fn mark_remove_item(needed: &mut Vec<bool>, item: &RemoveItem)
    ensures read { IsRemoveRead needed.new.items (remove_item_of item.now) }
    ensures still { StillNeeded needed.old.items needed.new.items }
{
    match item {
        RemoveItem::Property(variable, _) => mark_variable(needed, variable),
        RemoveItem::Labels(variable, _) => mark_variable(needed, variable),
    }
}

// Marks the columns of variables.
fn mark_variables(needed: &mut Vec<bool>, variables: &[Variable])
    ensures read { AllByRecursion (IsVariableRead needed.new.items) variables.now }
    ensures still { StillNeeded needed.old.items needed.new.items }
{
    for variable in variables {
        mark_variable(needed, variable);
    }
}

// Marks the column of a variable.
fn mark_variable(needed: &mut Vec<bool>, variable: &Variable)
    ensures read { IsVariableRead needed.new.items variable.now }
    ensures still { StillNeeded needed.old.items needed.new.items }
{
    mark_column(needed, variable.column);
}

// Marks the columns that an expression reads.
fn mark_read(alloc: Global, needed: &mut Vec<bool>, expression: &Expr) -> Result<(), Fault>
    ensures read { OnOk result (AreNeeded needed.new.items (columns_read (expression_of expression.now))) }
    ensures still { OnOk result (StillNeeded needed.old.items needed.new.items) }
{
    let columns = columns_read(alloc, expression)?;
    mark(needed, &columns);
    Ok(())
}

// Marks columns as needed; the others stay as they are.
fn mark(needed: &mut Vec<bool>, columns: &[usize])
    ensures marked { AreNeeded needed.new.items columns.now }
    ensures still { StillNeeded needed.old.items needed.new.items }
{
    for column in columns {
        mark_one(needed, *column);
    }
}

// Marks a column as needed, if it is one of the first.
#[tactic(auto, using(crate::proofs::Marked::marked_there, crate::proofs::Marked::marked_past, crate::proofs::Marked::still_marked))]
fn mark_one(needed: &mut Vec<bool>, column: usize)
    ensures marked { spec.is_needed needed.new.items column ≡ true }
    ensures still { StillNeeded needed.old.items needed.new.items }
{
    if column < needed.len() {
        needed[column] = true;
    }
}
