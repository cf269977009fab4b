//! What the operators of a plan are, and its layers from the uppermost operator down: operators with one operator below them. Each call that can fail
//! fails only when out of memory.

ghost use Rattle.std.specs.Prelude.{◌≡◌, ◌<◌, ◌≤◌, ◌++◌, ◌∷◌, [], IfOk, IsTrue, OnOk, map};
ghost use Rattle.std.specs.List.{AllByRecursion};
ghost use Rattle.cy_planner_algebra.specs.declared.operators.Operator.{size-Operator};
ghost use Rattle.cy_planner_algebra.specs.declared.operators.Operator.TheVariants as operator;
ghost use Rattle.cy_planner_algebra.specs.Plans.{width};
ghost use Rattle.cy_planner_algebra.specs.Plans as plans;
ghost use Rattle.cy_planner_algebra.specs.PlanModels.{output_of, plan_of};
ghost use Rattle.cy_planner_algebra.specs.WellFormed.{IsWellFormed};
ghost use Rattle.cy_planner_rows.specs.internal.Lookups.{over};
ghost use Rattle.cy_planner_rewriting.specs.declared.layers.Layer.TheVariants as layer;
ghost use Rattle.cy_planner_rewriting.specs.internal.Opened as opened;
ghost use Rattle.cy_planner_rewriting.specs.Rewritten.{IsRewritten};
ghost use Rattle.cy_planner_rewriting.specs.internal.Columns.{AreColumns};
ghost use Rattle.cy_planner_rewriting.specs.internal.Layers as spec;

use crate::lookups::{are_inside, below_projection, with_columns};
use crate::outputs::{columns_of, merged, renumber_members};
use cy_planner_algebra::{Attribute, Fields, Keeping, KeyColumns, Operator, Output, Plan};
use cy_planner_rows::{Wanted, renumber};
use cy_trees::Expr;
use cy_values::Fault;
use std::alloc::Global;

/// A projection goes up over at most this many conditions and tests.
const MOST_PASSED: usize = 64;

/// An operator that has one operator below it, without that one.
#[derive(Drop)]
pub enum Layer {
    Lookup(usize, Attribute),
    Filter(Expr),
    AllDifferent(Vec<usize>),
    Project(Vec<Output>),
    Distinct,
}

/// How two operators go together.
#[derive(Drop)]
pub enum Joint {
    Join(Vec<KeyColumns>),
    Outer(Vec<KeyColumns>, Expr),
    Semi(Vec<KeyColumns>, Keeping),
    Union,
}

/// What an operator is.
#[derive(Drop)]
pub enum Part {
    /// A plan with no operator below it.
    Leaf(Plan),
    /// A layer over another operator.
    Over(Layer, Operator),
    /// Two operators that go together.
    Both(Joint, Operator, Operator),
}

/// What an operator is to those who look for layers.
#[derive(Drop)]
pub enum Opened {
    /// A layer over another operator.
    Over(Layer, Operator),
    /// Another operator can stand in its place.
    Same(Operator),
    /// It has two operators below it, or none.
    Base(Operator),
}

/// The layers of a plan, the uppermost first, the look-ups below them, the lowest first, and what these stand on.
#[derive(Drop)]
pub(crate) struct Layers {
    pub(crate) layers: Vec<Layer>,
    pub(crate) lookups: Vec<Wanted>,
    pub(crate) base: Operator,
}

/// An operator opened.
pub fn open_operator(part: Operator) -> Part
    ensures { opened.IsOpened part result }
{
    match part.into_fields() {
        Fields::Unit => Part::Leaf(Plan::unit()),
        Fields::Nodes => Part::Leaf(Plan::nodes()),
        Fields::Rels(types, orientation) => Part::Leaf(Plan::rels(types, orientation)),
        Fields::Lookup(below, column, attribute) => {
            Part::Over(Layer::Lookup(column, attribute), Box::into_inner(below))
        }
        Fields::Filter(below, test) => Part::Over(Layer::Filter(test), Box::into_inner(below)),
        Fields::AllDifferent(below, columns) => {
            Part::Over(Layer::AllDifferent(columns), Box::into_inner(below))
        }
        Fields::Project(below, outputs) => {
            Part::Over(Layer::Project(outputs), Box::into_inner(below))
        }
        Fields::Distinct(below) => Part::Over(Layer::Distinct, Box::into_inner(below)),
        Fields::Join(left, right, keys) => {
            Part::Both(
                Joint::Join(keys),
                Box::into_inner(left),
                Box::into_inner(right),
            )
        }
        Fields::Outer(left, right, keys, test) => {
            Part::Both(
                Joint::Outer(keys, test),
                Box::into_inner(left),
                Box::into_inner(right),
            )
        }
        Fields::Semi(left, right, keys, keeping) => {
            Part::Both(
                Joint::Semi(keys, keeping),
                Box::into_inner(left),
                Box::into_inner(right),
            )
        }
        Fields::Union(left, right) => {
            Part::Both(Joint::Union, Box::into_inner(left), Box::into_inner(right))
        }
    }
}

/// Two plans together. Fails only when out of memory.
pub fn joined(alloc: Global, joint: Joint, left: Plan, right: Plan) -> Result<Plan, Fault>
    requires { IsWellFormed (opened.together joint (plan_of left) (plan_of right)) }
    ensures { IfOk result (λ p. plan_of p ≡ opened.together joint (plan_of left) (plan_of right)) }
{
    match joint {
        Joint::Join(keys) => Plan::join(alloc, left, right, keys),
        Joint::Outer(keys, test) => Plan::outer(alloc, left, right, keys, test),
        Joint::Semi(keys, keeping) => Plan::semi(alloc, left, right, keys, keeping),
        Joint::Union => Plan::union(alloc, left, right),
    }
}

fn is_unit(part: &Operator) -> bool
    ensures { IsTrue result → part.now ≡ operator.Unit }
{
    matches!(part, Operator::Unit)
}

/// An operator opened. The pairs of the empty row and the rows of another operator, by no key, are the rows of that operator.
pub fn open_part(part: Operator) -> Opened
    ensures { spec.IsOpened part result }
{
    match part.into_fields() {
        Fields::Lookup(below, column, attribute) => {
            Opened::Over(Layer::Lookup(column, attribute), Box::into_inner(below))
        }
        Fields::Filter(below, test) => { Opened::Over(Layer::Filter(test), Box::into_inner(below)) }
        Fields::AllDifferent(below, columns) => {
            Opened::Over(Layer::AllDifferent(columns), Box::into_inner(below))
        }
        Fields::Project(below, outputs) => {
            Opened::Over(Layer::Project(outputs), Box::into_inner(below))
        }
        Fields::Distinct(below) => Opened::Over(Layer::Distinct, Box::into_inner(below)),
        Fields::Join(left, right, keys) => {
            if keys.is_empty() && is_unit(&left) {
                Opened::Same(Box::into_inner(right))
            } else {
                Opened::Base(Operator::Join(left, right, keys))
            }
        }
        Fields::Unit => Opened::Base(Operator::Unit),
        Fields::Nodes => Opened::Base(Operator::Nodes),
        Fields::Rels(types, orientation) => Opened::Base(Operator::Rels(types, orientation)),
        Fields::Outer(left, right, keys, test) => {
            Opened::Base(Operator::Outer(left, right, keys, test))
        }
        Fields::Semi(left, right, keys, keeping) => {
            Opened::Base(Operator::Semi(left, right, keys, keeping))
        }
        Fields::Union(left, right) => Opened::Base(Operator::Union(left, right)),
    }
}

fn push(layers: &mut Vec<Layer>, layer: Layer) -> Result<(), Fault>
    ensures { OnOk result ((p : plans.Plan) → spec.AreInPlace (layers.old.items ++ layer ∷ []) layers.new.items p p) }
{
    layers.push(layer)?;
    Ok(())
}

/// Puts a projection below another one: one projection for both, where there is such a one.
fn add_second(
    alloc: Global,
    layers: &mut Vec<Layer>,
    outer: Vec<Output>,
    inner: Vec<Output>,
) -> Result<(), Fault>
    ensures { OnOk result ((p : plans.Plan) → spec.AreInPlace (layers.old.items ++ layer.Project outer ∷ layer.Project inner ∷ []) layers.new.items p p) }
{
    match merged(alloc, outer.as_slice(), inner.as_slice())? {
        Some(outputs) => push(layers, Layer::Project(outputs)),
        None => {
            layers.push(Layer::Project(outer))?;
            push(layers, Layer::Project(inner))
        }
    }
}

/// Puts a projection that takes over columns below all: it goes up over conditions and tests, but over this many at most.
fn add_columns(
    alloc: Global,
    layers: &mut Vec<Layer>,
    outputs: Vec<Output>,
    columns: &[usize],
    most: usize,
) -> Result<(), Fault>
    requires { AreColumns (map output_of outputs.items) columns.now }
    ensures { OnOk result ((p : plans.Plan) → spec.AreInPlace (layers.old.items ++ layer.Project outputs ∷ []) layers.new.items p p) }
{
    if most == 0 {
        return push(layers, Layer::Project(outputs));
    }
    match layers.pop() {
        Some(Layer::Project(outer)) => add_second(alloc, layers, outer, outputs),
        Some(Layer::Filter(test)) => {
            let lower = renumber(alloc, &test, columns)?;
            add_columns(alloc, layers, outputs, columns, most - 1)?;
            layers.push(Layer::Filter(lower))?;
            Ok(())
        }
        Some(Layer::AllDifferent(members)) => {
            let lower = renumber_members(alloc, members.as_slice(), columns)?;
            add_columns(alloc, layers, outputs, columns, most - 1)?;
            layers.push(Layer::AllDifferent(lower))?;
            Ok(())
        }
        Some(Layer::Lookup(column, attribute)) => {
            layers.push(Layer::Lookup(column, attribute))?;
            push(layers, Layer::Project(outputs))
        }
        Some(Layer::Distinct) => {
            layers.push(Layer::Distinct)?;
            push(layers, Layer::Project(outputs))
        }
        None => push(layers, Layer::Project(outputs)),
    }
}

/// Puts a projection that makes something below all: it is one with a projection above it that takes over columns alone.
fn add_made(alloc: Global, layers: &mut Vec<Layer>, outputs: Vec<Output>) -> Result<(), Fault>
    ensures { OnOk result ((p : plans.Plan) → spec.AreInPlace (layers.old.items ++ layer.Project outputs ∷ []) layers.new.items p p) }
{
    match layers.pop() {
        Some(Layer::Project(outer)) => add_second(alloc, layers, outer, outputs),
        Some(lowest) => {
            layers.push(lowest)?;
            push(layers, Layer::Project(outputs))
        }
        None => push(layers, Layer::Project(outputs)),
    }
}

/// Whether a projection below all can go up over the lowest layer, or be one with it.
fn lets_up(layers: &[Layer]) -> bool {
    matches!(
        layers.last(),
        Some(Layer::Project(_) | Layer::Filter(_) | Layer::AllDifferent(_))
    )
}

/// Puts a projection below all, or what can stand in its place.
pub(crate) fn add_projection(
    alloc: Global,
    layers: &mut Vec<Layer>,
    outputs: Vec<Output>,
) -> Result<(), Fault>
    ensures { OnOk result ((p : plans.Plan) → spec.AreInPlace (layers.old.items ++ layer.Project outputs ∷ []) layers.new.items p p) }
{
    if !lets_up(layers.as_slice()) {
        return push(layers, Layer::Project(outputs));
    }
    match columns_of(alloc, outputs.as_slice())? {
        Some(columns) => add_columns(alloc, layers, outputs, columns.as_slice(), MOST_PASSED),
        None => add_made(alloc, layers, outputs),
    }
}

/// Puts a test below all that no relationship stands twice. In no column none does.
fn add_test(layers: &mut Vec<Layer>, columns: Vec<usize>) -> Result<(), Fault>
    ensures { OnOk result ((p : plans.Plan) → spec.AreInPlace (layers.old.items ++ layer.AllDifferent columns ∷ []) layers.new.items p p) }
{
    if columns.is_empty() {
        Ok(())
    } else {
        push(layers, Layer::AllDifferent(columns))
    }
}

/// Look-ups that go no further down are layers.
pub(crate) fn settle(layers: &mut Vec<Layer>, pending: &mut Vec<Wanted>) -> Result<(), Fault>
    ensures layers { OnOk result (layers.new.items ≡ layers.old.items ++ map spec.lookup_layer pending.old.items) }
    ensures pending { OnOk result (pending.new.items ≡ []) }
{
    pending.reverse();
    while let Some(lookup) = pending.pop() {
        layers.push(Layer::Lookup(lookup.column, lookup.attribute))?;
    }
    Ok(())
}

/// Puts a projection below all, and the look-ups below it, if they can stand there.
fn put_projection(
    alloc: Global,
    layers: &mut Vec<Layer>,
    pending: &mut Vec<Wanted>,
    outputs: Vec<Output>,
    below: &Operator,
) -> Result<(), Fault>
    requires { IsWellFormed (plan_of below.now) }
    ensures { OnOk result (spec.GoesOn layers.old.items pending.old.items (opened.over_layer (layer.Project outputs) (plan_of below.now)) layers.new.items pending.new.items (plan_of below.now)) }
{
    if pending.is_empty() {
        return add_projection(alloc, layers, outputs);
    }
    let width = below.width();
    match below_projection(alloc, outputs.as_slice(), pending.as_slice(), width)? {
        Some(moved) => {
            let wide = with_columns(alloc, outputs, width, pending.len())?;
            *pending = moved;
            add_projection(alloc, layers, wide)
        }
        None => {
            settle(layers, pending)?;
            add_projection(alloc, layers, outputs)
        }
    }
}

/// Puts a layer below all, and the look-ups below it, if they can stand there.
fn put(
    alloc: Global,
    layers: &mut Vec<Layer>,
    pending: &mut Vec<Wanted>,
    layer: Layer,
    below: &Operator,
) -> Result<(), Fault>
    requires { IsWellFormed (plan_of below.now) }
    ensures { OnOk result (spec.GoesOn layers.old.items pending.old.items (opened.over_layer layer (plan_of below.now)) layers.new.items pending.new.items (plan_of below.now)) }
{
    match layer {
        Layer::Lookup(column, attribute) => {
            pending.push(Wanted { column, attribute })?;
            Ok(())
        }
        Layer::Filter(test) => push(layers, Layer::Filter(test)),
        Layer::AllDifferent(columns) => add_test(layers, columns),
        Layer::Project(outputs) => put_projection(alloc, layers, pending, outputs, below),
        Layer::Distinct => {
            settle(layers, pending)?;
            push(layers, Layer::Distinct)
        }
    }
}

/// Keeps the look-ups above all that is below, where there is no join to go below.
fn settle_unless(
    joins: bool,
    layers: &mut Vec<Layer>,
    pending: &mut Vec<Wanted>,
) -> Result<(), Fault>
    ensures { OnOk result ((p : plans.Plan) → spec.stacked layers.new.items pending.new.items p ≡ spec.stacked layers.old.items pending.old.items p) }
{
    if joins {
        Ok(())
    } else {
        settle(layers, pending)
    }
}

/// Whether a join of some kind is what the layers of a plan stand on.
fn joins_below(part: &Operator) -> bool {
    let mut part = part;
    loop {
        match part {
            Operator::Join(left, right, keys) => {
                if !keys.is_empty() || !is_unit(left) {
                    return true;
                }
                part = right;
            }
            Operator::Outer(_, _, _, _) | Operator::Semi(_, _, _, _) => return true,
            Operator::Lookup(below, _, _)
            | Operator::Filter(below, _)
            | Operator::AllDifferent(below, _)
            | Operator::Project(below, _)
            | Operator::Distinct(below) => part = below,
            Operator::Unit | Operator::Nodes | Operator::Rels(_, _) | Operator::Union(_, _) =>
                return false,
        }
    }
}

/// A plan with look-ups on it, taken apart: its layers, the look-ups on what these stand on, and that.
fn with_base(layers: Vec<Layer>, pending: Vec<Wanted>, base: Operator) -> Result<Layers, Fault>
    requires { IsWellFormed (plan_of base) }
    ensures same { IfOk result (λ r. spec.layered r.layers.items (over (plan_of r.base) r.lookups.items) ≡ spec.stacked layers.items pending.items (plan_of base)) }
    ensures base { IfOk result (λ r. r.base ≡ base) }
    ensures inside { IfOk result (λ r. AllByRecursion (λ w. w.column < width (plan_of r.base)) r.lookups.items) }
{
    let mut layers = layers;
    let mut lookups = pending;
    if are_inside(lookups.as_slice(), &base) {
        lookups.reverse();
        Ok(Layers {
            layers,
            lookups,
            base,
        })
    } else {
        settle(&mut layers, &mut lookups)?;
        Ok(Layers {
            layers,
            lookups,
            base,
        })
    }
}

/// A plan with look-ups on it, taken apart into layers, look-ups and what these stand on.
pub(crate) fn taken_apart(
    alloc: Global,
    part: Operator,
    lookups: Vec<Wanted>,
) -> Result<Layers, Fault>
    requires { IsWellFormed (over (plan_of part) lookups.items) }
    ensures same { IfOk result (λ r. IsRewritten (over (plan_of part) lookups.items) (spec.layered r.layers.items (over (plan_of r.base) r.lookups.items))) }
    ensures inside { IfOk result (λ r. AllByRecursion (λ w. w.column < width (plan_of r.base)) r.lookups.items) }
    ensures base { IfOk result (λ r. spec.IsBase (plan_of r.base)) }
    ensures no_deeper { IfOk result (λ r. size-Operator r.base ≤ size-Operator part) }
{
    let joins = joins_below(&part);
    let mut layers = Vec::new(alloc);
    let mut pending = lookups;
    pending.reverse();
    let mut part = part;
    loop {
        match open_part(part) {
            Opened::Over(layer, below) => {
                settle_unless(joins, &mut layers, &mut pending)?;
                put(alloc, &mut layers, &mut pending, layer, &below)?;
                part = below;
            }
            Opened::Same(other) => part = other,
            Opened::Base(base) => return with_base(layers, pending, base),
        }
    }
}
