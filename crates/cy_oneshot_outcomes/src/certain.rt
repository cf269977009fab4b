//! Conditions that surely have a truth, by their form and by the kinds of what stands in the columns. (own)

ghost use Rattle.std.specs.Prelude.{◌≡◌, ◌++◌, ◌&&◌, IfOk, map};
ghost use Rattle.std.specs.List.{list_all};
ghost use Rattle.cy_scope_kinds.specs.Sure.{is_literal};
ghost use Rattle.cy_trees.specs.TreeModels.{expression_of, expressions_from, link_of, links_from};
ghost use Rattle.cy_oneshot_outcomes.specs.internal.Certain as spec;
ghost use Rattle.cy_oneshot_patterns.specs.internal.Patterns.{place_of};

use cy_oneshot_patterns::Place;
use cy_scope_kinds::{Function, is_known_list, is_literal, is_sure_binary, is_sure_unary};
use cy_trees::{BinaryOperator, Comparator, Expr, Link, UnaryOperator};
use cy_values::{Cell, Fault, Value};
use std::alloc::Global;

/// What stands in a column.
#[derive(Clone, Copy, Debug, PartialEq, Eq)]
pub enum Shape {
    Node,
    Relationship,
    Relationships,
    Null,
    Boolean,
    /// A value that is neither null nor a boolean.
    Value,
}

impl Shape {
    /// That of a cell.
    pub(crate) fn of(cell: &Cell) -> Self
        ensures { result ≡ spec.shape_of cell.now }
    {
        match cell {
            Cell::Node(_) => Shape::Node,
            Cell::Rel(_) => Shape::Relationship,
            Cell::Rels(_) => Shape::Relationships,
            Cell::Value(Value::Null) => Shape::Null,
            Cell::Value(Value::Bool(_)) => Shape::Boolean,
            Cell::Value(_) => Shape::Value,
        }
    }

    /// That of what stands in a place.
    pub(crate) fn at(place: Place<'_>) -> Self
        ensures { result ≡ spec.shape_at (place_of place.entry) }
    {
        match place {
            Place::Node(_) => Shape::Node,
            Place::Relationship(_) => Shape::Relationship,
            Place::Relationships(..) => Shape::Relationships,
        }
    }

    // Whether properties can be asked for, which null has none of.
    fn has_properties(self) -> bool
        ensures { result ≡ spec.has_properties self }
    {
        matches!(self, Shape::Node | Shape::Relationship | Shape::Null)
    }

    // Whether labels can be asked for.
    fn has_labels(self) -> bool
        ensures { result ≡ spec.has_labels self }
    {
        matches!(self, Shape::Node | Shape::Null)
    }

    // Whether a type can be asked for.
    fn has_type(self) -> bool
        ensures { result ≡ spec.has_type self }
    {
        matches!(self, Shape::Relationship | Shape::Null)
    }

    // Whether a size can be asked for, which a value may have none of.
    fn has_size(self) -> bool
        ensures { result ≡ spec.has_size self }
    {
        matches!(self, Shape::Relationships | Shape::Null)
    }

    // Whether it is that of a value.
    fn is_value(self) -> bool
        ensures { result ≡ spec.is_value self }
    {
        matches!(self, Shape::Null | Shape::Boolean | Shape::Value)
    }

    // Whether it is that of a boolean or null.
    fn is_flag(self) -> bool
        ensures { result ≡ spec.is_flag self }
    {
        matches!(self, Shape::Null | Shape::Boolean)
    }
}

/// The shapes of what stands in the columns of a row, with those of new variables after them, which stand in these places. Fails only
/// when out of memory.
pub fn shapes(
    alloc: Global,
    row: &[Cell],
    places: &[Place<'_>],
    new: &[usize],
) -> Result<Vec<Shape>, Fault>
    ensures { IfOk result (λ shapes. shapes.items ≡ map spec.shape_of row.now ++ map (spec.shape_in (map place_of places.now)) new.now) }
{
    let mut shapes = Vec::with_capacity(alloc, row.len())?;
    for cell in row {
        shapes.push(Shape::of(cell))?;
    }
    for at in new {
        shapes.push(shape_in(places, *at))?;
    }
    Ok(shapes)
}

// The shape of what stands in the place with a number.
fn shape_in(places: &[Place<'_>], at: usize) -> Shape
    ensures { result ≡ spec.shape_in (map place_of places.now) at }
{
    match places.get(at) {
        Some(place) => Shape::at(*place),
        None => Shape::Null,
    }
}

/// Whether a condition surely has a truth on each row with these shapes.
pub fn is_certain_condition(shapes: &[Shape], condition: &Expr) -> bool
    ensures { result ≡ spec.is_certain_flag shapes.now (expression_of condition.now) }
{
    is_certain(shapes, condition) && gives_flag(shapes, condition)
}

/// Whether an expression surely has a cell.
#[cycle(certainty)]
fn is_certain(shapes: &[Shape], expression: &Expr) -> bool
    ensures { result ≡ spec.is_certain shapes.now (expression_of expression.now) }
{
    match expression {
        Expr::Null | Expr::Boolean(_) | Expr::Integer(_) | Expr::Text(_) | Expr::Variable(_) =>
            true,
        Expr::Property(owner, _) => variable_shape(shapes, owner).has_properties(),
        Expr::HasLabels(owner, _) => variable_shape(shapes, owner).has_labels(),
        Expr::Unary(operator, operand) => {
            is_certain(shapes, operand) && is_sure_unary(*operator, gives_flag(shapes, operand))
        }
        Expr::Binary(operator, left, right) => {
            is_certain(shapes, left)
                && is_certain(shapes, right)
                && gives_value(shapes, left)
                && gives_value(shapes, right)
                && is_sure_binary(
                    *operator,
                    gives_flag(shapes, left) && gives_flag(shapes, right),
                    is_known_list(right),
                )
        }
        Expr::Comparison(first, links) => {
            is_certain(shapes, first)
                && are_certain_links(shapes, gives_value(shapes, first), links)
        }
        Expr::List(elements) => are_literals(elements),
        Expr::Call(name, _, arguments) => {
            is_certain_call(shapes, Function::named(name.as_str()), arguments)
        }
        Expr::Case(..) | Expr::CallStar(_) => false,
    }
}

/// Whether the operands of a chain of comparisons surely have cells that may be compared, where the one before them is a value or
/// may be none.
#[cycle(certainty)]
fn are_certain_links(shapes: &[Shape], value: bool, links: &[Link]) -> bool
    ensures { result ≡ spec.are_certain_links shapes.now value (links_from (map link_of links.now)) }
{
    let mut before = value;
    for link in links {
        if !is_certain_link(shapes, before, link) {
            return false;
        }
        before = gives_value(shapes, &link.operand);
    }
    true
}

/// Whether one operand surely has a cell that may be compared, where the one before it is a value or may be none.
#[cycle(certainty)]
fn is_certain_link(shapes: &[Shape], before: bool, link: &Link) -> bool
    ensures { let e = expression_of link.now.operand in result ≡ (spec.is_certain shapes.now e && spec.may_compare link.now.comparator (before && spec.gives_value shapes.now e)) }
{
    is_certain(shapes, &link.operand)
        && may_compare(
            link.comparator,
            before && gives_value(shapes, &link.operand),
        )
}

/// Whether a call surely has a value.
#[cycle(certainty)]
fn is_certain_call(shapes: &[Shape], function: Option<Function>, arguments: &[Expr]) -> bool
    ensures { let es = expressions_from (map expression_of arguments.now) in result ≡ spec.is_certain_call function (spec.first_shape shapes.now es) (spec.asked_shape shapes.now es) (spec.are_certain shapes.now es) }
{
    match function {
        Some(Function::Id) => first_shape(shapes, arguments).has_properties(),
        Some(Function::Type) => first_shape(shapes, arguments).has_type(),
        Some(Function::Labels) => first_shape(shapes, arguments).has_labels(),
        Some(Function::Size) => first_shape(shapes, arguments).has_size(),
        Some(Function::Exists) => asked_shape(shapes, arguments).has_properties(),
        Some(Function::Coalesce) => are_certain(shapes, arguments),
        _ => false,
    }
}

/// Whether expressions surely have values.
#[cycle(certainty)]
fn are_certain(shapes: &[Shape], expressions: &[Expr]) -> bool
    ensures { result ≡ spec.are_certain shapes.now (expressions_from (map expression_of expressions.now)) }
{
    for expression in expressions {
        if !is_certain_value(shapes, expression) {
            return false;
        }
    }
    true
}

/// Whether an expression surely has a value.
#[cycle(certainty)]
fn is_certain_value(shapes: &[Shape], expression: &Expr) -> bool
    ensures { result ≡ (spec.is_certain shapes.now (expression_of expression.now) && spec.gives_value shapes.now (expression_of expression.now)) }
{
    is_certain(shapes, expression) && gives_value(shapes, expression)
}

// Whether two cells may surely be compared, which may both be values.
fn may_compare(comparator: Comparator, values: bool) -> bool
    ensures { result ≡ spec.may_compare comparator values }
{
    match comparator {
        Comparator::Equal | Comparator::NotEqual => true,
        _ => values,
    }
}

// Whether the cell of an expression, if it has one, is a value.
fn gives_value(shapes: &[Shape], expression: &Expr) -> bool
    ensures { result ≡ spec.gives_value shapes.now (expression_of expression.now) }
{
    match expression {
        Expr::Variable(variable) => column_shape(shapes, variable.column).is_value(),
        _ => true,
    }
}

// Whether the cell of an expression, if it has one, is a boolean or null.
fn gives_flag(shapes: &[Shape], expression: &Expr) -> bool
    ensures { result ≡ spec.gives_flag shapes.now (expression_of expression.now) }
{
    match expression {
        Expr::Null | Expr::Boolean(_) | Expr::HasLabels(..) | Expr::Comparison(..) => true,
        Expr::Variable(variable) => column_shape(shapes, variable.column).is_flag(),
        Expr::Unary(operator, _) => {
            !matches!(operator, UnaryOperator::Plus | UnaryOperator::Minus)
        }
        Expr::Binary(operator, _, _) => gives_truth(*operator),
        Expr::Call(name, _, _) => {
            matches!(Function::named(name.as_str()), Some(Function::Exists))
        }
        _ => false,
    }
}

// Whether an operator gives a boolean or null.
fn gives_truth(operator: BinaryOperator) -> bool
    ensures { result ≡ spec.gives_truth operator }
{
    match operator {
        BinaryOperator::Add
        | BinaryOperator::Subtract
        | BinaryOperator::Multiply
        | BinaryOperator::Divide
        | BinaryOperator::Remainder => false,
        _ => true,
    }
}

// Whether expressions are literals.
#[tactic(auto, using(crate::proofs::CertainSteps::literals_all))]
fn are_literals(expressions: &[Expr]) -> bool
    ensures { result ≡ spec.are_literals (expressions_from (map expression_of expressions.now)) }
{
    all_literals(expressions)
}

// Whether expressions are literals, tried one after another.
fn all_literals(expressions: &[Expr]) -> bool
    ensures { result ≡ list_all (λ e. is_literal (expression_of e)) expressions.now }
{
    expressions.iter().all(|expression| is_literal(expression))
}

// The shape of the first of arguments, if it is the only one and a variable.
#[tactic(auto, using(crate::proofs::CertainSteps::not_one_first))]
fn first_shape(shapes: &[Shape], arguments: &[Expr]) -> Shape
    ensures { result ≡ spec.first_shape shapes.now (expressions_from (map expression_of arguments.now)) }
{
    if arguments.len() != 1 {
        return Shape::Value;
    }
    variable_shape(shapes, &arguments[0])
}

// The shape of what has the property that an only argument asks for, if it is a variable.
#[tactic(auto, using(crate::proofs::CertainSteps::not_one_asked))]
fn asked_shape(shapes: &[Shape], arguments: &[Expr]) -> Shape
    ensures { result ≡ spec.asked_shape shapes.now (expressions_from (map expression_of arguments.now)) }
{
    if arguments.len() != 1 {
        return Shape::Value;
    }
    owner_shape(shapes, &arguments[0])
}

// The shape of what a property is asked of, if it is a variable.
fn owner_shape(shapes: &[Shape], expression: &Expr) -> Shape
    ensures { result ≡ spec.owner_shape shapes.now (expression_of expression.now) }
{
    match expression {
        Expr::Property(owner, _) => variable_shape(shapes, owner),
        _ => Shape::Value,
    }
}

// The shape of a variable; a value's for another expression.
fn variable_shape(shapes: &[Shape], expression: &Expr) -> Shape
    ensures { result ≡ spec.variable_shape shapes.now (expression_of expression.now) }
{
    match expression {
        Expr::Variable(variable) => column_shape(shapes, variable.column),
        _ => Shape::Value,
    }
}

// The shape of what stands in a column; null's where there is none.
fn column_shape(shapes: &[Shape], column: Option<usize>) -> Shape
    ensures { result ≡ spec.column_shape shapes.now column }
{
    match column {
        Some(column) => match shapes.get(column) {
            Some(shape) => *shape,
            None => Shape::Null,
        },
        None => Shape::Null,
    }
}
