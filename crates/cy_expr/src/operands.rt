//! What is done with an operand that was evaluated.

ghost use Rattle.std.specs.Prelude.{◌≡◌, Result, Ok};
ghost use Rattle.cy_values.specs.Compare.{lent};
ghost use Rattle.cy_values.specs.Truth.{is_yes};
ghost use Rattle.cy_expr.specs.Comparison.{is_null_cell};
ghost use Rattle.cy_expr.specs.Evaluation.{as_cell};
ghost use Rattle.cy_expr.specs.Faults.{on_one, on_two};
ghost use Rattle.cy_expr.specs.Logic.{truth_of};
ghost use Rattle.cy_expr.specs.Lookups as graphs;
ghost use Rattle.cy_expr.specs.Operators as spec;
ghost use Rattle.cy_expr.specs.internal.Lent.{held_cell, Gives, GivesOrWants};

use crate::comparison::is_null;
use crate::faults::EvalFault;
use crate::held::Held;
use crate::logic::truth_of;
use crate::lookups::{Lookups, has_labels, has_property, property};
use crate::operators::{binary, compare, unary};
use cy_trees::{BinaryOperator, Comparator, UnaryOperator};
use cy_values::{Text, Truth, ValueRef};
use std::alloc::Global;

impl<'a> Held<'a> {
    /// Whether the cell is null.
    pub(crate) fn is_null(&self) -> bool
        ensures { result ≡ is_null_cell (held_cell self.now) }
    {
        is_null(self.view())
    }

    /// The cell itself, which is a value. `WrongType` for one that is none.
    pub(crate) fn only_value(self) -> Result<Held<'a>, EvalFault>
        ensures { Gives result (as_cell (spec.value_in_cell (held_cell self.entry))) }
    {
        self.value()?;
        Ok(self)
    }

    /// Whether the condition is true. `NotBoolean` for one that is neither boolean nor null.
    pub(crate) fn holds(self) -> Result<bool, EvalFault>
        ensures { result ≡ on_one (λ t. Ok (is_yes t)) (on_one truth_of (spec.value_in_cell (held_cell self.entry))) }
    {
        Ok(truth_of(self.value()?)? == Truth::Yes)
    }

    /// An operator with this operand.
    pub(crate) fn unary(self, operator: UnaryOperator) -> Result<Held<'a>, EvalFault>
        ensures { Gives result (as_cell (spec.unary_value operator (held_cell self.entry))) }
    {
        Ok(Held::Made(unary(operator, self.view())?))
    }

    /// An operator with a value at its left and this operand at its right.
    pub(crate) fn right_of(
        self,
        alloc: Global,
        operator: BinaryOperator,
        left: ValueRef<'_>,
    ) -> Result<Held<'a>, EvalFault>
        ensures { GivesOrWants result (as_cell (on_two (spec.binary_value operator) (Ok (lent left.entry)) (spec.value_in_cell (held_cell self.entry)))) }
    {
        Ok(Held::Made(binary(alloc, operator, left, self.value()?)?))
    }

    /// A comparison with the next operand of a chain.
    pub(crate) fn compare(
        &self,
        comparator: Comparator,
        right: &Held<'_>,
    ) -> Result<Truth, EvalFault>
        ensures { result ≡ spec.compared comparator (held_cell self.now) (held_cell right.now) }
    {
        compare(comparator, self.view(), right.view())
    }

    /// A property of the entity: null where it isn't there.
    pub(crate) fn property<'g, G: Lookups>(
        self,
        graph: &'g G,
        key: &str,
    ) -> Result<Held<'g>, EvalFault>
        ensures { Gives result (as_cell (graphs.property_value (G.lookups graph.now) key.now (held_cell self.entry))) }
    {
        Ok(Held::lent(property(graph, key, self.view())?))
    }

    /// Whether the entity has a property.
    pub(crate) fn has_property<G: Lookups>(
        self,
        graph: &G,
        key: &str,
    ) -> Result<Held<'a>, EvalFault>
        ensures { Gives result (as_cell (graphs.existence (G.lookups graph.now) key.now (held_cell self.entry))) }
    {
        Ok(Held::Made(has_property(graph, key, self.view())?))
    }

    /// Whether the node has each of the labels.
    pub(crate) fn has_labels<G: Lookups>(
        self,
        graph: &G,
        labels: &[Text],
    ) -> Result<Held<'a>, EvalFault>
        ensures { Gives result (as_cell (graphs.labels_test (G.lookups graph.now) labels.now (held_cell self.entry))) }
    {
        Ok(Held::Made(has_labels(graph, labels, self.view())?))
    }
}
