//! The faults of what stands after WHERE: a condition, and paths (own).

ghost use Rattle.std.specs.Prelude.{◌≡◌, map, None, Some};
ghost use Rattle.cy_trees.specs.TreeModels.{filter_of, node_of, relationship_of, step_of, path_of, path_test_of, where_of};
ghost use Rattle.cy_scope_kinds.specs.Scopes.{find_kind};
ghost use Rattle.cy_scope_kinds.specs.internal.Answers.{Fault};
ghost use Rattle.cy_scope.specs.ConditionFaults as spec;

use crate::pattern_checks::check_map;
use cy_scope_kinds::{Kind, Scope, ScopeFault, check_value, demand};
use cy_trees::{Expr, NodePattern, Path, PathTest, RelationshipPattern, Step, Variable, Where};
use std::alloc::Global;

fn check_condition(alloc: Global, scope: &Scope, condition: &Option<Expr>) -> Result<(), ScopeFault>
    ensures { Fault (spec.condition_fault scope.now (filter_of condition.now)) result }
{
    match condition {
        Some(condition) => check_value(alloc, scope, condition),
        None => Ok(()),
    }
}

/// The fault of a variable that has to be a node.
pub(crate) fn check_node_only(scope: &Scope, variable: &Variable) -> Result<(), ScopeFault>
    ensures { Fault (spec.node_only_fault (find_kind scope.now variable.now.name)) result }
{
    match scope.find_kind(variable.name.as_str()) {
        Some(kind) => demand(kind == Kind::Node, ScopeFault::WrongKind),
        None => Err(ScopeFault::UnknownVariable),
    }
}

fn check_node_name(scope: &Scope, variable: &Option<Variable>) -> Result<(), ScopeFault>
    ensures { Fault (spec.tested_node_name_fault scope.now variable.now) result }
{
    match variable {
        Some(variable) => check_node_only(scope, variable),
        None => Ok(()),
    }
}

fn check_relationship_name(scope: &Scope, variable: &Option<Variable>) -> Result<(), ScopeFault>
    ensures { Fault (spec.tested_relationship_name_fault scope.now variable.now) result }
{
    let Some(variable) = variable else {
        return Ok(());
    };
    match scope.find_kind(variable.name.as_str()) {
        Some(_) => Err(ScopeFault::AlreadyBound),
        None => Err(ScopeFault::UnknownVariable),
    }
}

fn check_node(alloc: Global, scope: &Scope, node: &NodePattern) -> Result<(), ScopeFault>
    ensures { Fault (spec.tested_node_fault scope.now (node_of node.now)) result }
{
    check_node_name(scope, &node.variable)?;
    check_map(alloc, scope, &node.properties)
}

fn check_relationship(
    alloc: Global,
    scope: &Scope,
    relationship: &RelationshipPattern,
) -> Result<(), ScopeFault>
    ensures { Fault (spec.tested_relationship_fault scope.now (relationship_of relationship.now)) result }
{
    check_relationship_name(scope, &relationship.variable)?;
    check_map(alloc, scope, &relationship.properties)
}

fn check_step(alloc: Global, scope: &Scope, step: &Step) -> Result<(), ScopeFault>
    ensures { Fault (spec.tested_step_fault scope.now (step_of step.now)) result }
{
    check_relationship(alloc, scope, &step.relationship)?;
    check_node(alloc, scope, &step.node)
}

fn check_path(alloc: Global, scope: &Scope, path: &Path) -> Result<(), ScopeFault>
    ensures { Fault (spec.tested_path_fault scope.now (path_of path.now)) result }
{
    check_node(alloc, scope, &path.start)?;
    for step in &path.steps {
        check_step(alloc, scope, step)?;
    }
    Ok(())
}

fn check_tests(alloc: Global, scope: &Scope, tests: &[PathTest]) -> Result<(), ScopeFault>
    ensures { Fault (spec.path_tests_fault scope.now (map path_test_of tests.now)) result }
{
    for test in tests {
        check_path(alloc, scope, &test.path)?;
    }
    Ok(())
}

/// The first fault of what stands after WHERE, if anything: of the condition, then of the paths.
pub(crate) fn check_where(alloc: Global, scope: &Scope, filter: &Where) -> Result<(), ScopeFault>
    ensures { Fault (spec.where_fault scope.now (where_of filter.now)) result }
{
    check_condition(alloc, scope, &filter.test)?;
    check_tests(alloc, scope, &filter.paths)
}
