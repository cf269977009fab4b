//! The faults of patterns, of MATCH and of CREATE (own).

ghost use Rattle.std.specs.Prelude.{◌≡◌, ◌⊎◌, ◌++◌, [], ◌∷◌, map, None, Some, OnOk, MatchResult};
ghost use Rattle.cy_trees.specs.TreeModels.{properties_of, node_of, relationship_of, step_of, path_of, entry_of};
ghost use Rattle.cy_scope_kinds.specs.declared.kinds.Kind.TheVariants as kinds;
ghost use Rattle.cy_scope_kinds.specs.Scopes.{added_name, added, relationship_kind, with_step, with_path};
ghost use Rattle.cy_scope_kinds.specs.internal.Answers.{Fault, MayFault, GoesOn};
ghost use Rattle.cy_scope.specs.PatternFaults as spec;

use cy_scope_kinds::{Kind, Scope, ScopeFault, check_value, demand, find_kind, relationship_kind};
use cy_trees::{Direction, MapEntry, NodePattern, Path, RelationshipPattern, Step, Variable};
use cy_values::Text;
use std::alloc::{AllocError, Global};

/// Adds a variable to the second scope, if its name is new in both.
fn see_name(before: &Scope, fresh: &mut Scope, kind: Kind, name: &str) -> Result<(), AllocError>
    ensures { OnOk result (before.now ++ fresh.new ≡ added_name (before.now ++ fresh.old) kind name.now) }
{
    if before.find_kind(name).is_some() {
        return Ok(());
    }
    fresh.add_name(kind, name)?;
    Ok(())
}

/// Adds a variable, if there is one, to the second scope, if its name is new in both.
fn see(
    before: &Scope,
    fresh: &mut Scope,
    kind: Kind,
    variable: &Option<Variable>,
) -> Result<(), AllocError>
    ensures { OnOk result (before.now ++ fresh.new ≡ added (before.now ++ fresh.old) kind variable.now) }
{
    match variable {
        Some(variable) => see_name(before, fresh, kind, variable.name.as_str()),
        None => Ok(()),
    }
}

/// The first fault of a property map, which sees the variables bound before its clause.
pub(crate) fn check_map(
    alloc: Global,
    before: &Scope,
    properties: &Option<Vec<MapEntry>>,
) -> Result<(), ScopeFault>
    ensures { Fault (spec.map_fault before.now (properties_of properties.now)) result }
{
    let Some(entries) = properties else {
        return Ok(());
    };
    for entry in entries {
        check_value(alloc, before, &entry.value)?;
    }
    Ok(())
}

/// The fault of a name at a node place: of CREATE, or of MATCH.
fn check_node_name(
    creating: bool,
    before: &Scope,
    fresh: &Scope,
    joined: bool,
    variable: &Option<Variable>,
) -> Result<(), ScopeFault>
    ensures { Fault (spec.node_name_fault creating (before.now ++ fresh.now) joined variable.now) result }
{
    let Some(variable) = variable else {
        return Ok(());
    };
    let Some(kind) = find_kind(before, fresh, variable.name.as_str()) else {
        return Ok(());
    };
    demand(!creating || joined, ScopeFault::AlreadyBound)?;
    demand(kind == Kind::Node, ScopeFault::WrongKind)
}

/// Whether a node place has neither labels nor a map.
fn is_bare(node: &NodePattern) -> bool
    ensures { result ≡ spec.is_bare (node_of node.now) }
{
    node.labels.is_empty() && node.properties.is_none()
}

/// Goes on over a node place, which may be in a path with a relationship: its first fault.
fn check_node(
    alloc: Global,
    creating: bool,
    before: &Scope,
    fresh: &mut Scope,
    linked: bool,
    node: &NodePattern,
) -> Result<(), ScopeFault>
    ensures { GoesOn (spec.node_fault creating before.now (before.now ++ fresh.old) linked (node_of node.now)) (added (before.now ++ fresh.old) kinds.Node node.now.variable) (before.now ++ fresh.new) result }
{
    let joined = linked && is_bare(node);
    check_node_name(creating, before, fresh, joined, &node.variable)?;
    check_map(alloc, before, &node.properties)?;
    see(before, fresh, Kind::Node, &node.variable)?;
    Ok(())
}

/// The fault of a name at a relationship place: of CREATE, or of MATCH.
fn check_relationship_name(
    creating: bool,
    before: &Scope,
    fresh: &Scope,
    variable: &Option<Variable>,
) -> Result<(), ScopeFault>
    ensures { Fault (spec.relationship_name_fault creating before.now (before.now ++ fresh.now) variable.now) result }
{
    let Some(variable) = variable else {
        return Ok(());
    };
    let name = variable.name.as_str();
    let found = find_kind(before, fresh, name);
    if creating {
        return demand(found.is_none(), ScopeFault::AlreadyBound);
    }
    demand(before.find_kind(name).is_none(), ScopeFault::AlreadyBound)?;
    match found {
        Some(Kind::Node) => Err(ScopeFault::WrongKind),
        Some(_) => Err(ScopeFault::RepeatedRelationship),
        None => Ok(()),
    }
}

/// Whether CREATE can make it: it has one direction, one type and no length.
fn can_be_made(relationship: &RelationshipPattern) -> bool
    ensures { result ≡ spec.can_be_made (relationship_of relationship.now) }
{
    let directed = match relationship.direction {
        Direction::Right | Direction::Left => true,
        Direction::Either => false,
    };
    directed && is_one_type(&relationship.types) && relationship.length.is_none()
}

fn is_one_type(types: &[Text]) -> bool
    ensures { result ≡ spec.is_one_type types.now }
{
    match types.split_first() {
        Some((_, others)) => others.is_empty(),
        None => false,
    }
}

/// Goes on over a relationship place: its first fault.
fn check_relationship(
    alloc: Global,
    creating: bool,
    before: &Scope,
    fresh: &mut Scope,
    relationship: &RelationshipPattern,
) -> Result<(), ScopeFault>
    ensures { GoesOn (spec.relationship_fault creating before.now (before.now ++ fresh.old) (relationship_of relationship.now)) (added (before.now ++ fresh.old) (relationship_kind relationship.now.length) relationship.now.variable) (before.now ++ fresh.new) result }
{
    check_relationship_name(creating, before, fresh, &relationship.variable)?;
    demand(
        !creating || can_be_made(relationship),
        ScopeFault::BadCreate,
    )?;
    check_map(alloc, before, &relationship.properties)?;
    see(
        before,
        fresh,
        relationship_kind(relationship.length),
        &relationship.variable,
    )?;
    Ok(())
}

fn check_step(
    alloc: Global,
    creating: bool,
    before: &Scope,
    fresh: &mut Scope,
    step: &Step,
) -> Result<(), ScopeFault>
    ensures { GoesOn (spec.step_fault creating before.now (before.now ++ fresh.old) (step_of step.now)) (with_step (before.now ++ fresh.old) (step_of step.now)) (before.now ++ fresh.new) result }
{
    check_relationship(alloc, creating, before, fresh, &step.relationship)?;
    check_node(alloc, creating, before, fresh, true, &step.node)
}

fn check_path(
    alloc: Global,
    creating: bool,
    before: &Scope,
    fresh: &mut Scope,
    path: &Path,
) -> Result<(), ScopeFault>
    ensures { GoesOn (spec.path_fault creating before.now (before.now ++ fresh.old) (path_of path.now)) (with_path (before.now ++ fresh.old) (path_of path.now)) (before.now ++ fresh.new) result }
{
    let linked = !path.steps.is_empty();
    check_node(alloc, creating, before, fresh, linked, &path.start)?;
    for step in &path.steps {
        check_step(alloc, creating, before, fresh, step)?;
    }
    Ok(())
}

/// The first fault of a pattern, of CREATE or of MATCH.
pub(crate) fn check_paths(
    alloc: Global,
    creating: bool,
    before: &Scope,
    paths: &[Path],
) -> Result<(), ScopeFault>
    ensures { MayFault (spec.paths_fault creating before.now before.now (map path_of paths.now)) result }
{
    let mut fresh = Scope::new(alloc);
    for path in paths {
        check_path(alloc, creating, before, &mut fresh, path)?;
    }
    Ok(())
}
