//! The label that a scan of nodes needs.

ghost use Rattle.std.specs.Prelude.{◌≡◌, ◌≤◌, ◌∷◌, [], ℕ, List, IfSome, true, drop, length, map};
ghost use Rattle.std.specs.List.{list_any};
ghost use Rattle.std.specs.Option.{option_copied};
ghost use Rattle.std.specs.Str.{bytes_eq};
ghost use Rattle.cy_trees.specs.Trees.{Expression, binary, text};
ghost use Rattle.cy_trees.specs.TreeModels.{expression_of};
ghost use Rattle.cy_trees.specs.declared.expressions.BinaryOperator.TheVariants.{In};
ghost use Rattle.cy_planner_algebra.specs.declared.operators.Attribute.TheVariants.{Labels};
ghost use Rattle.cy_planner_algebra.specs.Plans as plan;
ghost use Rattle.cy_planner_algebra.specs.Plans.{Plan, computed};
ghost use Rattle.cy_planner_algebra.specs.PlanModels.{output_of, plan_of};
ghost use Rattle.cy_network_sources.specs.Scans as scans;
ghost use Rattle.cy_network_sources.specs.internal.Through.{IsLabelTest, IsNeeded, IsNodeFit, LeaveNode, node_made};

use crate::scan_columns::{is_column, is_variable};
use cy_graph::Node;
use cy_planner_algebra::{Attribute, Operator, Output};
use cy_trees::{BinaryOperator, Expr};
use cy_values::Text;

/// A label without which no node has a row in a scan with these operators, where the scan begins with a test of one.
pub(crate) fn needed_label<'p>(parts: &[&'p Operator]) -> Option<&'p Text>
    ensures { IfSome result (λ label. IsNeeded label.now (map (λ part. plan_of part.now) parts.now)) }
{
    let count = parts.len();
    if count < 3 {
        return None;
    }
    label_tested(parts[count - 3], parts[count - 2], parts[count - 1])
}

/// How many operators of a scan, from the top, are left to make the row of a node: none of those at its end that test no more than that the
/// nodes have a label, if this one has it.
pub(crate) fn parts_left(parts: &[&Operator], node: &Node) -> usize
    ensures within { result ≤ length parts.now }
    ensures same { LeaveNode node.now (drop result (map (λ part. plan_of part.now) parts.now)) }
{
    let count = parts.len();
    if count < 4 {
        return count;
    }
    if leave_node(
        parts[count - 4],
        parts[count - 3],
        parts[count - 2],
        parts[count - 1],
        node,
    ) {
        return count - 4;
    }
    count
}

// Whether a projection over a filter of nodes by their labels leaves the row of a node as it is.
fn leave_node(
    projection: &Operator,
    filter: &Operator,
    lookup: &Operator,
    nodes: &Operator,
    node: &Node,
) -> bool
    ensures { result ≡ true → LeaveNode node.now (plan_of projection.now ∷ plan_of filter.now ∷ plan_of lookup.now ∷ plan_of nodes.now ∷ []) }
{
    match label_tested(filter, lookup, nodes) {
        Some(label) => has_label(node, label) && gives_first(projection),
        None => false,
    }
}

// Whether an operator is a projection to the first column alone.
fn gives_first(part: &Operator) -> bool
    ensures { result ≡ true → (p : Plan) × ((o : plan.Output) × ((plan_of part.now ≡ plan.project p (o ∷ [])) × (scans.is_column 0 o ≡ true))) }
{
    match part {
        Operator::Project(_, outputs) => is_first(outputs),
        _ => false,
    }
}

// Whether what a projection makes is the first column alone.
fn is_first(outputs: &[Output]) -> bool
    ensures { result ≡ true → (o : plan.Output) × ((map output_of outputs.now ≡ o ∷ []) × (scans.is_column 0 o ≡ true)) }
{
    outputs.len() == 1 && is_column(&outputs[0], 0)
}

// The label for which a filter tests the nodes, over an operator that looks their labels up.
fn label_tested<'p>(filter: &'p Operator, lookup: &Operator, nodes: &Operator) -> Option<&'p Text>
    ensures { IfSome result (λ label. IsLabelTest label.now (plan_of filter.now ∷ plan_of lookup.now ∷ plan_of nodes.now ∷ [])) }
{
    if !looks_labels_up(lookup) || !are_nodes(nodes) {
        return None;
    }
    match filter {
        Operator::Filter(_, test) => label_in(test),
        _ => None,
    }
}

// Whether an operator looks up the labels of nodes.
fn looks_labels_up(part: &Operator) -> bool
    ensures { result ≡ true → (p : Plan) × ((column : ℕ) × (plan_of part.now ≡ plan.lookup p column Labels)) }
{
    match part {
        Operator::Lookup(_, _, attribute) => are_labels(attribute),
        _ => false,
    }
}

// Whether an attribute is the list of labels.
fn are_labels(attribute: &Attribute) -> bool
    ensures { result ≡ true → attribute.now ≡ Labels }
{
    matches!(attribute, Attribute::Labels)
}

// Whether an operator gives the nodes.
fn are_nodes(part: &Operator) -> bool
    ensures { result ≡ true → plan_of part.now ≡ plan.nodes }
{
    matches!(part, Operator::Nodes)
}

/// The label of which an expression tests whether it is in the list in the second column.
pub fn label_in(test: &Expr) -> Option<&Text>
    ensures { IfSome result (λ label. (labels : Expression) × ((expression_of test.now ≡ binary In (text label.now) labels) × (scans.is_column 1 (computed labels) ≡ true))) }
{
    match test {
        Expr::Binary(BinaryOperator::In, label, labels) if is_variable(labels, 1) => text_of(label),
        _ => None,
    }
}

// The text that an expression is.
fn text_of(expression: &Expr) -> Option<&Text>
    ensures { IfSome result (λ t. expression_of expression.now ≡ text t.now) }
{
    match expression {
        Expr::Text(text) => Some(text),
        _ => None,
    }
}

/// A node, if it is there and has the label that is needed, if one is.
pub(crate) fn with_label<'n>(label: Option<&Text>, node: Option<&'n Node>) -> Option<&'n Node>
    ensures made { (ps : List Plan) (number : ℕ) → IfSome label.entry (λ l. IsNeeded l.now ps) → node_made ps number (option_copied result) ≡ node_made ps number (option_copied node.entry) }
    ensures fit { (ps : List Plan) (number : ℕ) → IsNodeFit ps number (option_copied node.entry) → IsNodeFit ps number (option_copied result) }
{
    match (label, node) {
        (Some(label), Some(node)) if !has_label(node, label) => None,
        _ => node,
    }
}

/// Whether a node has a label.
pub fn has_label(node: &Node, label: &Text) -> bool
    ensures { result ≡ list_any (bytes_eq label.now) (map (λ l. l.0) node.now.labels) }
{
    node.labels.get(label.as_str()).is_some()
}
