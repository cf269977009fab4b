//! What tells of a row whether a path is there: the nodes that the path names, and the values that its entries ask for.

ghost use Rattle.std.specs.Prelude.{◌≡◌, ◌+◌, ◌++◌, ◌≤◌, IfOk, OnOk, codes, false, map};
ghost use Rattle.std.specs.List.{range_with_len};
ghost use Rattle.cy_trees.specs.Trees.{boolean, call, more, no_more};
ghost use Rattle.cy_trees.specs.TreeModels.{expression_of};
ghost use Rattle.cy_oneshot_patterns.specs.internal.Patterns.{place_of};
ghost use Rattle.cy_planner_algebra.specs.WellFormed.{greatest_width};
ghost use Rattle.cy_planner_optional.specs.internal.Told as spec;

use cy_oneshot_patterns::Place;
use cy_planner_algebra::KeyColumns;
use cy_planner_rows::{and_also, column_variable, or_true};
use cy_planner_tables::keys;
use cy_trees::{Expr, UnaryOperator};
use cy_values::{Fault, Text};
use std::alloc::Global;

/// A value, or false where it is null.
fn or_false(alloc: Global, value: &Expr) -> Result<Expr, Fault>
    ensures { IfOk result (λ e. expression_of e ≡ call (codes "coalesce") false (more (expression_of value.now) (more (boolean false) no_more))) }
{
    let name = Text::from_str(alloc, "coalesce")?;
    let mut arguments = Vec::new(alloc);
    arguments.push(value.copy(alloc)?)?;
    arguments.push(Expr::Boolean(false))?;
    Ok(Expr::Call(name, false, arguments))
}

/// Adds what tells a value: whether it is null, and the value, or false where it is.
fn add_told(alloc: Global, told: &mut Vec<Expr>, value: &Expr) -> Result<(), Fault>
    ensures { OnOk result (map expression_of told.new.items ≡ map expression_of told.old.items ++ spec.told_by (expression_of value.now)) }
{
    let operand = Box::new(alloc, value.copy(alloc)?)?;
    told.push(Expr::Unary(UnaryOperator::IsNull, operand))?;
    told.push(or_false(alloc, value)?)?;
    Ok(())
}

/// What tells several values. Fails only when out of memory.
pub(crate) fn told_values(alloc: Global, values: &[&Expr]) -> Result<Vec<Expr>, Fault>
    ensures { IfOk result (λ told. map expression_of told.items ≡ spec.told (map (λ e. expression_of e.now) values.now)) }
{
    let mut told = Vec::new(alloc);
    for value in values {
        add_told(alloc, &mut told, value)?;
    }
    Ok(told)
}

/// Expressions, each lent. Fails only when out of memory.
pub(crate) fn lent(alloc: Global, expressions: &[Expr]) -> Result<Vec<&Expr>, Fault>
    ensures { IfOk result (λ refs. map (λ e. expression_of e.now) refs.items ≡ map expression_of expressions.now) }
{
    let mut refs = Vec::with_capacity(alloc, expressions.len())?;
    for expression in expressions {
        refs.push(expression)?;
    }
    Ok(refs)
}

/// The columns of the nodes that a pattern names, of rows with so many columns. Fails only when out of memory.
pub(crate) fn named_columns(
    alloc: Global,
    count: usize,
    places: &[Place<'_>],
) -> Result<Vec<usize>, Fault>
    ensures { IfOk result (λ columns. columns.items ≡ spec.named_columns count (map place_of places.now)) }
{
    let found = keys(alloc, count, places)?;
    let keys = found.as_slice();
    let mut columns = Vec::with_capacity(alloc, keys.len())?;
    for key in keys {
        columns.push(key.left)?;
    }
    Ok(columns)
}

/// Adds keys of the same columns on both sides, from one on.
fn add_keys(keys: &mut Vec<KeyColumns>, first: usize, count: usize) -> Result<(), Fault>
    requires { first + count ≤ greatest_width }
    ensures { OnOk result (keys.new.items ≡ keys.old.items ++ spec.alike (range_with_len first count)) }
{
    for more in 0..count {
        let column = first + more;
        keys.push(KeyColumns {
            left: column,
            right: column,
        })?;
    }
    Ok(())
}

/// Keys of the same columns on both sides: of these, and of so many from one on. Fails only when out of memory.
pub(crate) fn alike_keys(
    alloc: Global,
    columns: &[usize],
    first: usize,
    count: usize,
) -> Result<Vec<KeyColumns>, Fault>
    requires { first + count ≤ greatest_width }
    ensures { IfOk result (λ keys. keys.items ≡ spec.alike (columns.now ++ range_with_len first count)) }
{
    let mut keys = Vec::new(alloc);
    for column in columns {
        keys.push(KeyColumns {
            left: *column,
            right: *column,
        })?;
    }
    add_keys(&mut keys, first, count)?;
    Ok(keys)
}

/// Whether a column has something.
fn is_not_null_at(alloc: Global, column: usize) -> Result<Expr, Fault>
    ensures { IfOk result (λ e. expression_of e ≡ spec.is_not_null_at column) }
{
    let operand = Box::new(alloc, column_variable(alloc, column)?)?;
    Ok(Expr::Unary(UnaryOperator::IsNotNull, operand))
}

/// Whether each of these columns has something. Fails only when out of memory.
#[tactic(auto, using(cy_planner_tables::proofs::CodeLemmas::tests_all))]
pub(crate) fn all_there(alloc: Global, columns: &[usize]) -> Result<Expr, Fault>
    ensures { IfOk result (λ e. expression_of e ≡ spec.all_there columns.now) }
{
    let mut tests = None;
    for column in columns {
        let test = is_not_null_at(alloc, *column)?;
        tests = Some(and_also(alloc, tests, test)?);
    }
    Ok(or_true(tests))
}
