//! The faults of clauses (own).

ghost use Rattle.std.specs.Prelude.{◌≡◌, ◌⊎◌, [], map, None, Some, MatchResult};
ghost use Rattle.cy_trees.specs.TreeModels.{set_item_of, remove_item_of, clause_of, query_of};
ghost use Rattle.cy_scope_kinds.specs.Scopes.{find_kind};
ghost use Rattle.cy_scope.specs.ClauseScopes.{scope_after, query_scope};
ghost use Rattle.cy_scope_kinds.specs.internal.Answers.{Fault, GoesOn};
ghost use Rattle.cy_scope_kinds.specs.declared.faults.ScopeFault.TheVariants.{NoMemory};
ghost use Rattle.cy_scope.specs.internal.Trees.{unwind_of, match_of, with_of};
ghost use Rattle.cy_scope.specs.ClauseFaults as spec;

use crate::condition_checks::{check_node_only, check_where};
use crate::pattern_checks::check_paths;
use crate::projection_checks::check_projection;
use cy_scope_kinds::{Kind, Scope, ScopeFault, check_value, demand};
use cy_trees::{Clause, Match, Query, RemoveItem, SetItem, Unwind, Variable, With};
use std::alloc::Global;

/// The fault of a variable that has to be a node or one relationship.
fn check_entity(scope: &Scope, variable: &Variable) -> Result<(), ScopeFault>
    ensures { Fault (spec.entity_fault (find_kind scope.now variable.now.name)) result }
{
    match scope.find_kind(variable.name.as_str()) {
        Some(kind) => demand(kind.is_entity(), ScopeFault::WrongKind),
        None => Err(ScopeFault::UnknownVariable),
    }
}

fn check_set(alloc: Global, scope: &Scope, item: &SetItem) -> Result<(), ScopeFault>
    ensures { Fault (spec.set_fault scope.now (set_item_of item.now)) result }
{
    match item {
        SetItem::Property(variable, _, expression) => {
            check_entity(scope, variable)?;
            check_value(alloc, scope, expression)
        }
        SetItem::Labels(variable, _) => check_node_only(scope, variable),
    }
}

fn check_sets(alloc: Global, scope: &Scope, items: &[SetItem]) -> Result<(), ScopeFault>
    ensures { Fault (spec.sets_fault scope.now (map set_item_of items.now)) result }
{
    for item in items {
        check_set(alloc, scope, item)?;
    }
    Ok(())
}

fn check_remove(scope: &Scope, item: &RemoveItem) -> Result<(), ScopeFault>
    ensures { Fault (spec.remove_fault scope.now (remove_item_of item.now)) result }
{
    match item {
        RemoveItem::Property(variable, _) => check_entity(scope, variable),
        RemoveItem::Labels(variable, _) => check_node_only(scope, variable),
    }
}

fn check_removes(scope: &Scope, items: &[RemoveItem]) -> Result<(), ScopeFault>
    ensures { Fault (spec.removes_fault scope.now (map remove_item_of items.now)) result }
{
    for item in items {
        check_remove(scope, item)?;
    }
    Ok(())
}

fn check_deletes(scope: &Scope, variables: &[Variable]) -> Result<(), ScopeFault>
    ensures { Fault (spec.deletes_fault scope.now variables.now) result }
{
    for variable in variables {
        check_entity(scope, variable)?;
    }
    Ok(())
}

fn check_unwind(alloc: Global, scope: &mut Scope, unwind: &Unwind) -> Result<(), ScopeFault>
    ensures { let c = unwind_of unwind.now in GoesOn (spec.clause_fault scope.old c) (scope_after scope.old c) scope.new result }
{
    check_value(alloc, scope, &unwind.list)?;
    let name = unwind.variable.name.as_str();
    demand(scope.find_kind(name).is_none(), ScopeFault::AlreadyBound)?;
    scope.add_name(Kind::Value, name)?;
    Ok(())
}

fn check_match(alloc: Global, scope: &mut Scope, matching: &Match) -> Result<(), ScopeFault>
    ensures { let c = match_of matching.now in GoesOn (spec.clause_fault scope.old c) (scope_after scope.old c) scope.new result }
{
    check_paths(alloc, false, scope, &matching.paths)?;
    scope.add_paths(&matching.paths)?;
    check_where(alloc, scope, &matching.filter)
}

fn check_with(alloc: Global, scope: &mut Scope, with: &With) -> Result<(), ScopeFault>
    ensures { let c = with_of with.now in GoesOn (spec.clause_fault scope.old c) (scope_after scope.old c) scope.new result }
{
    let columns = check_projection(alloc, true, scope, &with.projection)?;
    check_where(alloc, &columns, &with.filter)?;
    *scope = columns;
    Ok(())
}

/// Goes on over a clause: its first fault; without one, the scope after it comes in place of the scope before it.
pub(crate) fn check_clause(
    alloc: Global,
    scope: &mut Scope,
    clause: &Clause,
) -> Result<(), ScopeFault>
    ensures { let c = clause_of clause.now in GoesOn (spec.clause_fault scope.old c) (scope_after scope.old c) scope.new result }
{
    match clause {
        Clause::Match(matching) => check_match(alloc, scope, matching),
        Clause::Unwind(unwind) => check_unwind(alloc, scope, unwind),
        Clause::With(with) => check_with(alloc, scope, with),
        Clause::Return(projection) => {
            *scope = check_projection(alloc, false, scope, projection)?;
            Ok(())
        }
        Clause::Create(paths) => {
            check_paths(alloc, true, scope, paths)?;
            scope.add_paths(paths)?;
            Ok(())
        }
        Clause::Set(items) => check_sets(alloc, scope, items),
        Clause::Remove(items) => check_removes(scope, items),
        Clause::Delete(delete) => check_deletes(scope, &delete.variables),
    }
}

/// The scope at the end of a query, or its first fault.
pub(crate) fn check_query(alloc: Global, query: &Query) -> Result<Scope, ScopeFault>
    ensures { let q = query_of query.now in MatchResult result (λ scope. (spec.query_fault q ≡ None) × (scope ≡ query_scope q)) (λ f. (f ≡ NoMemory) ⊎ (spec.query_fault q ≡ Some f)) }
{
    let mut scope = Scope::new(alloc);
    for clause in &query.clauses {
        check_clause(alloc, &mut scope, clause)?;
    }
    Ok(scope)
}
