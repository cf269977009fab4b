//! The text of patterns.

ghost use Rattle.std.specs.Prelude.{◌≡◌, ◌++◌, ◌∷◌, [], OnOk, string_bytes, map};
ghost use Rattle.cy_trees.specs.Show as shown;
ghost use Rattle.cy_trees.specs.Show.{pieces_text};
ghost use Rattle.cy_trees.specs.TreeModels as tree;

use crate::clauses::{Direction, Length, MapEntry, NodePattern, Path, RelationshipPattern, Step};
use crate::expressions::Variable;
use crate::quoting::write_name;
use crate::showing::{write_expression, write_labels};
use crate::writing::{Separator, Show, write_each, write_separated};
use cy_values::Text;
use std::alloc::AllocError;

impl Show for Text {
    ghost pieces = { λ t. shown.named t ∷ [] };

    fn write(&self, text: &mut String) -> Result<(), AllocError> {
        write_name(text, self.as_str())
    }
}

impl Show for Variable {
    ghost pieces = { λ v. shown.named v.name ∷ [] };

    fn write(&self, text: &mut String) -> Result<(), AllocError> {
        write_name(text, self.name.as_str())
    }
}

impl Show for MapEntry {
    ghost pieces = { λ e. shown.entry_pieces (tree.entry_of e) };

    fn write(&self, text: &mut String) -> Result<(), AllocError> {
        write_name(text, self.key.as_str())?;
        text.push(':')?;
        write_expression(text, &self.value)
    }
}

impl Show for NodePattern {
    ghost pieces = { λ n. shown.node_pieces (tree.node_of n) };

    fn write(&self, text: &mut String) -> Result<(), AllocError> {
        text.push('(')?;
        write_variable(text, &self.variable)?;
        write_labels(text, &self.labels)?;
        write_map(text, &self.properties)?;
        text.push(')')
    }
}

impl Show for RelationshipPattern {
    ghost pieces = { λ r. shown.relationship_pieces (tree.relationship_of r) };

    fn write(&self, text: &mut String) -> Result<(), AllocError> {
        text.push_str(tail(self.direction))?;
        write_variable(text, &self.variable)?;
        write_types(text, &self.types)?;
        write_length(text, &self.length)?;
        write_map(text, &self.properties)?;
        text.push_str(head(self.direction))
    }
}

impl Show for Step {
    ghost pieces = { λ s. shown.step_pieces (tree.step_of s) };

    fn write(&self, text: &mut String) -> Result<(), AllocError> {
        self.relationship.write(text)?;
        self.node.write(text)
    }
}

impl Show for Path {
    ghost pieces = { λ p. shown.path_pieces (tree.path_of p) };

    fn write(&self, text: &mut String) -> Result<(), AllocError> {
        self.start.write(text)?;
        write_steps(text, &self.steps)
    }
}

/// What a relationship begins with.
fn tail(direction: Direction) -> &'static str
    ensures { result.now ≡ pieces_text (shown.tail_pieces direction) }
{
    match direction {
        Direction::Left => "<-[",
        Direction::Right | Direction::Either => "-[",
    }
}

/// What a relationship ends with.
fn head(direction: Direction) -> &'static str
    ensures { result.now ≡ pieces_text (shown.head_pieces direction) }
{
    match direction {
        Direction::Right => "]->",
        Direction::Left | Direction::Either => "]-",
    }
}

fn write_variable(text: &mut String, variable: &Option<Variable>) -> Result<(), AllocError>
    ensures { OnOk result (string_bytes text.new ≡ string_bytes text.old ++ pieces_text (shown.variable_pieces variable.now)) }
{
    match variable {
        Some(variable) => variable.write(text),
        None => Ok(()),
    }
}

/// Writes types, the first after a colon and each other after a bar.
fn write_types(text: &mut String, types: &[Text]) -> Result<(), AllocError>
    ensures { OnOk result (string_bytes text.new ≡ string_bytes text.old ++ pieces_text (shown.type_pieces types.now)) }
{
    let Some((first, others)) = types.split_first() else {
        return Ok(());
    };
    text.push(':')?;
    first.write(text)?;
    write_each(text, Separator::Bar, others)
}

fn write_length(text: &mut String, length: &Option<Length>) -> Result<(), AllocError>
    ensures { OnOk result (string_bytes text.new ≡ string_bytes text.old ++ pieces_text (shown.length_pieces length.now)) }
{
    let Some(Length { least, most }) = length else {
        return Ok(());
    };
    write!(text, "*{least}..")?;
    match most {
        Some(most) => write!(text, "{most}"),
        None => Ok(()),
    }
}

#[tactic(auto, using(crate::proofs::ShowLemmas::steps_fused))]
fn write_steps(text: &mut String, steps: &[Step]) -> Result<(), AllocError>
    ensures { OnOk result (string_bytes text.new ≡ string_bytes text.old ++ pieces_text (shown.each_after [] (map shown.step_pieces (map tree.step_of steps.now)))) }
{
    write_each(text, Separator::Nothing, steps)
}

#[tactic(auto, using(crate::proofs::ShowLemmas::entries_fused))]
fn write_entries(text: &mut String, entries: &[MapEntry]) -> Result<(), AllocError>
    ensures { OnOk result (string_bytes text.new ≡ string_bytes text.old ++ pieces_text (shown.list_pieces (map shown.entry_pieces (map tree.entry_of entries.now)))) }
{
    write_separated(text, Separator::Comma, entries)
}

fn write_map(text: &mut String, properties: &Option<Vec<MapEntry>>) -> Result<(), AllocError>
    ensures { OnOk result (string_bytes text.new ≡ string_bytes text.old ++ pieces_text (shown.map_pieces (tree.properties_of properties.now))) }
{
    let Some(entries) = properties else {
        return Ok(());
    };
    text.push('{')?;
    write_entries(text, entries)?;
    text.push('}')
}
