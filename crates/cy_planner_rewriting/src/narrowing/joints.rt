//! Operators with two operators below them. Each call fails only when out of memory.

ghost use Rattle.std.specs.Prelude.{◌≡◌, ◌+◌, ◌≤◌, IfOk, map};
ghost use Rattle.std.specs.List.{All};
ghost use Rattle.cy_trees.specs.TreeModels.{expression_of};
ghost use Rattle.cy_planner_algebra.specs.Plans as plan;
ghost use Rattle.cy_planner_algebra.specs.WellFormed.{IsWellFormed, greatest_width};
ghost use Rattle.cy_planner_rows.specs.Renumbered.{new_column};
ghost use Rattle.cy_planner_rewriting.specs.Rewritten.{IsRewritten};
ghost use Rattle.cy_planner_rewriting.specs.internal.Narrows.{restored};
ghost use Rattle.cy_planner_rewriting.specs.internal.KeyPairs as spec;
ghost use Rattle.cy_planner_rewriting.specs.internal.Opened.{together};

use crate::layers::Joint;
use crate::narrowing::narrows::{Narrow, exact, settled, whole};
use cy_planner_algebra::{Keeping, KeyColumns, Plan};
use cy_trees::Expr;
use cy_values::{Fault, row_order_laws};
use std::alloc::Global;

/// The column that stands for another one; itself where there is none.
fn place_of(columns: &[usize], column: usize) -> usize
    ensures { result ≡ new_column columns.now column }
{
    match columns.get(column) {
        Some(place) => *place,
        None => column,
    }
}

/// Keys of rows that columns make, as keys of the rows that these are columns of.
fn renumber_keys(
    alloc: Global,
    keys: &[KeyColumns],
    left: &[usize],
    right: &[usize],
) -> Result<Vec<KeyColumns>, Fault>
    ensures { IfOk result (λ made. made.items ≡ map (spec.renumbered_key left.now right.now) keys.now) }
{
    let mut made = Vec::with_capacity(alloc, keys.len())?;
    for key in keys {
        made.push(KeyColumns {
            left: place_of(left, key.left),
            right: place_of(right, key.right),
        })?;
    }
    Ok(made)
}

/// The column of a pair, whose left row is this wide, in which the same stands as in a column of the right row: one of the left row, if a key
/// makes it the same.
fn paired_column(keys: &[KeyColumns], width: usize, column: usize) -> usize
    requires { width + column ≤ greatest_width }
    ensures { result ≡ spec.paired_column keys.now width column }
{
    for key in keys {
        if key.right == column {
            return key.left;
        }
    }
    width + column
}

/// The columns of pairs that columns of their left and of their right rows make.
fn paired_columns(
    alloc: Global,
    keys: &[KeyColumns],
    width: usize,
    left: Vec<usize>,
    right: &[usize],
) -> Result<Vec<usize>, Fault>
    requires { All (λ column. width + column ≤ greatest_width) right.now }
    ensures { IfOk result (λ columns. columns.items ≡ spec.paired_columns keys.now width left.items right.now) }
{
    let mut columns = left;
    for column in right {
        columns.push(paired_column(keys, width, *column))?;
    }
    Ok(columns)
}

/// Of two columns that a key makes the same, that of the left row is read.
fn joined(
    alloc: Global,
    left: Narrow,
    right: Narrow,
    keys: Vec<KeyColumns>,
) -> Result<Narrow, Fault>
    requires { IsWellFormed (plan.join (restored left) (restored right) keys.items) }
    ensures { IfOk result (λ n. IsRewritten (plan.join (restored left) (restored right) keys.items) (restored n)) }
{
    row_order_laws();
    let left = settled(alloc, left)?;
    let right = settled(alloc, right)?;
    let keys = renumber_keys(
        alloc,
        keys.as_slice(),
        left.columns.as_slice(),
        right.columns.as_slice(),
    )?;
    let columns = paired_columns(
        alloc,
        keys.as_slice(),
        left.plan.width(),
        left.columns,
        right.columns.as_slice(),
    )?;
    let plan = Plan::join(alloc, left.plan, right.plan, keys)?;
    Ok(Narrow { plan, columns })
}

fn outer_joined(
    alloc: Global,
    left: Narrow,
    right: Narrow,
    keys: Vec<KeyColumns>,
    test: Expr,
) -> Result<Narrow, Fault>
    requires { IsWellFormed (plan.outer (restored left) (restored right) keys.items (expression_of test)) }
    ensures { IfOk result (λ n. IsRewritten (plan.outer (restored left) (restored right) keys.items (expression_of test)) (restored n)) }
{
    let left = exact(alloc, left)?;
    let right = exact(alloc, right)?;
    whole(alloc, Plan::outer(alloc, left, right, keys, test)?)
}

fn semi_joined(
    alloc: Global,
    left: Narrow,
    right: Narrow,
    keys: Vec<KeyColumns>,
    keeping: Keeping,
) -> Result<Narrow, Fault>
    requires { IsWellFormed (plan.semi (restored left) (restored right) keys.items keeping) }
    ensures { IfOk result (λ n. IsRewritten (plan.semi (restored left) (restored right) keys.items keeping) (restored n)) }
{
    let left = exact(alloc, left)?;
    let right = exact(alloc, right)?;
    whole(alloc, Plan::semi(alloc, left, right, keys, keeping)?)
}

fn united(alloc: Global, left: Narrow, right: Narrow) -> Result<Narrow, Fault>
    requires { IsWellFormed (plan.union (restored left) (restored right)) }
    ensures { IfOk result (λ n. IsRewritten (plan.union (restored left) (restored right)) (restored n)) }
{
    let left = exact(alloc, left)?;
    let right = exact(alloc, right)?;
    whole(alloc, Plan::union(alloc, left, right)?)
}

/// Two plans together.
pub(crate) fn put_together(
    alloc: Global,
    joint: Joint,
    left: Narrow,
    right: Narrow,
) -> Result<Narrow, Fault>
    requires { IsWellFormed (together joint (restored left) (restored right)) }
    ensures { IfOk result (λ n. IsRewritten (together joint (restored left) (restored right)) (restored n)) }
{
    match joint {
        Joint::Join(keys) => joined(alloc, left, right, keys),
        Joint::Outer(keys, test) => outer_joined(alloc, left, right, keys, test),
        Joint::Semi(keys, keeping) => semi_joined(alloc, left, right, keys, keeping),
        Joint::Union => united(alloc, left, right),
    }
}
