//! The functions of one argument.

ghost use Rattle.std.specs.Prelude.{[], ◌∷◌};
ghost use Rattle.cy_expr.specs.internal.Lent.{lent_cell, held_cell, GivesOrWants};
ghost use Rattle.cy_expr.specs.Lookups.{IsNumbered};
ghost use Rattle.cy_expr.specs.Evaluation as spec;

use crate::arithmetic::absolute;
use crate::conversions::to_text;
use crate::faults::EvalFault;
use crate::held::Held;
use crate::lists::size;
use crate::lookups::{Lookups, labels_in, number_in, type_in};
use crate::operators::value_in;
use crate::views::CellView;
use cy_scope_kinds::Function;
use std::alloc::Global;

/// What a function gives for its argument. `WrongType` for a name that is no function's.
pub(crate) fn call<'a, G: Lookups>(
    alloc: Global,
    function: Option<Function>,
    argument: Held<'_>,
    graph: &'a G,
) -> Result<Held<'a>, EvalFault>
    requires { IsNumbered (held_cell argument) }
    ensures { GivesOrWants result (spec.as_cell (spec.called (G.lookups graph.now) function (held_cell argument.entry ∷ []))) }
{
    match function {
        Some(function) => apply(alloc, function, argument.view(), graph),
        None => Err(EvalFault::WrongType),
    }
}

// What a function gives for a cell. `WrongType` for an aggregate, and for those whose arguments have rules of their own.
fn apply<'a, G: Lookups>(
    alloc: Global,
    function: Function,
    argument: CellView<'_>,
    graph: &'a G,
) -> Result<Held<'a>, EvalFault>
    requires { IsNumbered (lent_cell argument) }
    ensures { GivesOrWants result (spec.as_cell (spec.function_value (G.lookups graph.now) function (lent_cell argument.entry))) }
{
    match function {
        Function::Id => Ok(Held::Made(number_in(argument)?)),
        Function::Type => Ok(Held::lent(type_in(graph, argument)?)),
        Function::Labels => Ok(Held::Made(labels_in(alloc, graph, argument)?)),
        Function::Size => Ok(Held::Made(size(argument)?)),
        Function::Abs => Ok(Held::Made(absolute(value_in(argument)?)?)),
        Function::ToString => Ok(Held::Made(to_text(alloc, value_in(argument)?)?)),
        _ => Err(EvalFault::WrongType),
    }
}
