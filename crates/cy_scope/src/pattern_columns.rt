//! Setting the columns of the variables of patterns, and of what stands after WHERE.

ghost use Rattle.std.specs.Prelude.{◌≡◌, map};
ghost use Rattle.cy_trees.specs.TreeModels.{expression_of, entry_of, properties_of, node_of, relationship_of, step_of, path_of, filter_of, path_test_of, where_of};
ghost use Rattle.cy_scope.specs.Resolved as spec;

use cy_scope_kinds::{Scope, resolved, resolved_variable};
use cy_trees::{
    Expr, MapEntry, NodePattern, Path, PathTest, RelationshipPattern, Step, Variable, Where,
};
use std::alloc::Global;
use std::mem;

/// The variable with its column.
pub(crate) fn resolved_in(alloc: Global, scope: &Scope, variable: Variable) -> Variable
    ensures { result ≡ spec.resolved_variable scope.now variable }
{
    resolved_variable(scope, &Scope::new(alloc), variable)
}

/// The expression with the columns of its variables.
pub(crate) fn resolved_expression(alloc: Global, scope: &Scope, expression: Expr) -> Expr
    ensures { expression_of result ≡ spec.resolved scope.now (expression_of expression) }
{
    resolved(scope, &Scope::new(alloc), expression)
}

/// Sets the columns of an expression's variables.
pub(crate) fn resolve(alloc: Global, scope: &Scope, expression: &mut Expr)
    ensures { expression_of expression.new ≡ spec.resolved scope.now (expression_of expression.old) }
{
    let inner = mem::replace(expression, Expr::Null);
    *expression = resolved_expression(alloc, scope, inner);
}

fn resolved_name(alloc: Global, scope: &Scope, variable: Option<Variable>) -> Option<Variable>
    ensures { result ≡ spec.resolved_name scope.now variable }
{
    match variable {
        Some(variable) => Some(resolved_in(alloc, scope, variable)),
        None => None,
    }
}

fn resolved_entries(alloc: Global, scope: &Scope, entries: Vec<MapEntry>) -> Vec<MapEntry>
    ensures { map entry_of result.items ≡ map (spec.resolved_entry scope.now) (map entry_of entries.items) }
{
    let mut entries = entries;
    for entry in entries.iter_mut() {
        resolve(alloc, scope, &mut entry.value);
    }
    entries
}

fn resolved_map(
    alloc: Global,
    scope: &Scope,
    properties: Option<Vec<MapEntry>>,
) -> Option<Vec<MapEntry>>
    ensures { properties_of result ≡ spec.resolved_map scope.now (properties_of properties) }
{
    match properties {
        Some(entries) => Some(resolved_entries(alloc, scope, entries)),
        None => None,
    }
}

fn resolve_node(alloc: Global, scope: &Scope, node: &mut NodePattern)
    ensures { node_of node.new ≡ spec.resolved_node scope.now (node_of node.old) }
{
    node.variable = resolved_name(alloc, scope, node.variable.take());
    node.properties = resolved_map(alloc, scope, node.properties.take());
}

fn resolve_relationship(alloc: Global, scope: &Scope, relationship: &mut RelationshipPattern)
    ensures { relationship_of relationship.new ≡ spec.resolved_relationship scope.now (relationship_of relationship.old) }
{
    relationship.variable = resolved_name(alloc, scope, relationship.variable.take());
    relationship.properties = resolved_map(alloc, scope, relationship.properties.take());
}

fn resolve_step(alloc: Global, scope: &Scope, step: &mut Step)
    ensures { step_of step.new ≡ spec.resolved_step scope.now (step_of step.old) }
{
    resolve_relationship(alloc, scope, &mut step.relationship);
    resolve_node(alloc, scope, &mut step.node);
}

fn resolve_steps(alloc: Global, scope: &Scope, steps: &mut [Step])
    ensures { map step_of steps.new ≡ map (spec.resolved_step scope.now) (map step_of steps.old) }
{
    for step in steps.iter_mut() {
        resolve_step(alloc, scope, step);
    }
}

fn resolve_path(alloc: Global, scope: &Scope, path: &mut Path)
    ensures { path_of path.new ≡ spec.resolved_path scope.now (path_of path.old) }
{
    resolve_node(alloc, scope, &mut path.start);
    resolve_steps(alloc, scope, &mut path.steps);
}

/// Sets the columns of the variables of paths.
pub(crate) fn resolve_paths(alloc: Global, scope: &Scope, paths: &mut [Path])
    ensures { map path_of paths.new ≡ map (spec.resolved_path scope.now) (map path_of paths.old) }
{
    for path in paths.iter_mut() {
        resolve_path(alloc, scope, path);
    }
}

fn resolved_condition(alloc: Global, scope: &Scope, condition: Option<Expr>) -> Option<Expr>
    ensures { filter_of result ≡ spec.resolved_condition scope.now (filter_of condition) }
{
    match condition {
        Some(condition) => Some(resolved_expression(alloc, scope, condition)),
        None => None,
    }
}

fn resolve_test(alloc: Global, scope: &Scope, test: &mut PathTest)
    ensures { path_test_of test.new ≡ spec.resolved_path_test scope.now (path_test_of test.old) }
{
    resolve_path(alloc, scope, &mut test.path);
}

fn resolve_tests(alloc: Global, scope: &Scope, tests: &mut [PathTest])
    ensures { map path_test_of tests.new ≡ map (spec.resolved_path_test scope.now) (map path_test_of tests.old) }
{
    for test in tests.iter_mut() {
        resolve_test(alloc, scope, test);
    }
}

/// Sets the columns of the variables of what stands after WHERE.
pub(crate) fn resolve_where(alloc: Global, scope: &Scope, filter: &mut Where)
    ensures { where_of filter.new ≡ spec.resolved_where scope.now (where_of filter.old) }
{
    filter.test = resolved_condition(alloc, scope, filter.test.take());
    resolve_tests(alloc, scope, &mut filter.paths);
}
