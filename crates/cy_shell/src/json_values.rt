//! The JSON of values, cells and rows, written token by token.

ghost use Rattle.std.specs.Prelude.{◌≡◌, ◌++◌, OnOk};
ghost use Rattle.cy_shell.specs.Json.{list_json};
ghost use Rattle.cy_shell.specs.internal.Tokens.{tokens_of, field_tokens, integer_json};

use cy_values::{Cell, NodeId, RelId, Row, Scalar, Sequence, Shared, Text, Value};
use json::{Token, Writer};
use std::alloc::AllocError;

/// What is written as JSON.
pub(crate) trait WriteJson {
    ghost use Rattle.serde_json.specs.Data.{Data};
    ghost use Rattle.cy_shell.specs.internal.Tokens.{tokens_of};

    ghost json: { Self → Data };

    /// Writes the JSON of the value. Fails only when out of memory: then some of it may have been written.
    fn write_json(&self, out: &mut Writer) -> Result<(), AllocError>
        ensures tokens { OnOk result (out.new.tokens ≡ out.old.tokens ++ tokens_of (json self.now)) }
        ensures before { out.new.before ≡ out.old.before };
}

impl WriteJson for Text {
    ghost use Rattle.serde_json.specs.Data.{string};

    ghost json = { λ text. string text };

    fn write_json(&self, out: &mut Writer) -> Result<(), AllocError> {
        out.string(self.as_str())
    }
}

impl WriteJson for u64 {
    ghost use Rattle.serde_json.specs.Data.{number, unsigned};

    ghost json = { λ whole. number (unsigned whole) };

    fn write_json(&self, out: &mut Writer) -> Result<(), AllocError> {
        out.u64(*self)
    }
}

impl WriteJson for i64 {
    ghost json = { integer_json };

    fn write_json(&self, out: &mut Writer) -> Result<(), AllocError> {
        out.i64(*self)
    }
}

impl WriteJson for Scalar {
    ghost use Rattle.cy_shell.specs.Json.{scalar_json};

    ghost json = { scalar_json };

    fn write_json(&self, out: &mut Writer) -> Result<(), AllocError> {
        match self {
            Scalar::Text(text) => text.write_json(out),
            Scalar::Bool(truth) => out.token(Token::Bool(*truth)),
            Scalar::Int(number) => number.write_json(out),
            Scalar::Null => out.token(Token::Null),
        }
    }
}

impl WriteJson for Value {
    ghost use Rattle.cy_shell.specs.Json.{value_json};

    ghost json = { value_json };

    fn write_json(&self, out: &mut Writer) -> Result<(), AllocError> {
        match self {
            Value::List(scalars) => scalars.write_json(out),
            Value::Text(text) => text.write_json(out),
            Value::Bool(truth) => out.token(Token::Bool(*truth)),
            Value::Int(number) => number.write_json(out),
            Value::Null => out.token(Token::Null),
        }
    }
}

impl WriteJson for NodeId {
    ghost use Rattle.cy_shell.specs.Json.{node_json};

    ghost json = { node_json };

    fn write_json(&self, out: &mut Writer) -> Result<(), AllocError> {
        out.begin_object()?;
        write_field(out, "node", &self.0)?;
        out.end_object()
    }
}

impl WriteJson for RelId {
    ghost use Rattle.cy_shell.specs.Json.{rel_json};

    ghost json = { rel_json };

    fn write_json(&self, out: &mut Writer) -> Result<(), AllocError> {
        out.begin_object()?;
        write_field(out, "rel", &self.0)?;
        out.end_object()
    }
}

impl WriteJson for Cell {
    ghost use Rattle.cy_shell.specs.Json.{cell_json};

    ghost json = { cell_json };

    fn write_json(&self, out: &mut Writer) -> Result<(), AllocError> {
        match self {
            Cell::Node(number) => number.write_json(out),
            Cell::Rel(number) => number.write_json(out),
            Cell::Rels(numbers) => numbers.write_json(out),
            Cell::Value(value) => value.write_json(out),
        }
    }
}

impl WriteJson for (Row, u64) {
    ghost use Rattle.cy_shell.specs.Json.{counted_json};

    ghost json = { counted_json };

    fn write_json(&self, out: &mut Writer) -> Result<(), AllocError> {
        out.begin_array()?;
        self.0.write_json(out)?;
        self.1.write_json(out)?;
        out.end_array()
    }
}

impl<T: WriteJson> WriteJson for Sequence<T> {
    ghost json = { list_json T.json };

    fn write_json(&self, out: &mut Writer) -> Result<(), AllocError> {
        write_list(out, self.as_slice())
    }
}

impl<T: WriteJson> WriteJson for Shared<T> {
    ghost json = { list_json T.json };

    fn write_json(&self, out: &mut Writer) -> Result<(), AllocError> {
        write_list(out, self.as_slice())
    }
}

// Writes the JSON of a list: that of each of its elements.
fn write_list<T: WriteJson>(out: &mut Writer, elements: &[T]) -> Result<(), AllocError>
    ensures tokens { OnOk result (out.new.tokens ≡ out.old.tokens ++ tokens_of (list_json T.json elements.now)) }
    ensures before { out.new.before ≡ out.old.before }
{
    out.begin_array()?;
    for element in elements {
        element.write_json(out)?;
    }
    out.end_array()
}

/// Writes a member of the object that is open: its key and its value.
pub(crate) fn write_field<T: WriteJson>(
    out: &mut Writer,
    name: &str,
    value: &T,
) -> Result<(), AllocError>
    ensures tokens { OnOk result (out.new.tokens ≡ out.old.tokens ++ field_tokens name.now (T.json value.now)) }
    ensures before { out.new.before ≡ out.old.before }
{
    out.key(name)?;
    value.write_json(out)
}
