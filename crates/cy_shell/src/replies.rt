//! The JSON of replies, entries and faults, written token by token.

ghost use Rattle.std.specs.Prelude.{◌≡◌, ◌++◌, OnOk};
ghost use Rattle.cy_shell.specs.Replies.{changed_json, statement_json, made_json, rows_json, entries_json, dropped_json, views_json, steps_json, index_json, offset_json};
ghost use Rattle.cy_shell.specs.internal.Tokens.{tokens_of};

use crate::json_values::{WriteJson, write_field};
use crate::words::word;
use cy_engine::{Changed, Entry, Reply, ViewListing};
use cy_values::{Row, Sequence, Text};
use json::{Token, Writer};
use std::alloc::AllocError;

impl WriteJson for Reply {
    ghost use Rattle.cy_shell.specs.internal.Tokens.{object_of};

    ghost json = { object_of };

    // A reply that says nothing is written as null, and isn't printed.
    fn write_json(&self, out: &mut Writer) -> Result<(), AllocError> {
        match self {
            Reply::Nothing => out.token(Token::Null),
            Reply::Statement {
                changed,
                columns,
                rows,
            } => write_statement(out, changed, columns, rows),
            Reply::Made {
                columns,
                tick,
                view,
            } => write_made(out, columns, *tick, view),
            Reply::Rows { rows, tick, view } => write_rows(out, rows, *tick, view),
            Reply::Entries {
                entries,
                tick,
                view,
            } => write_entries(out, entries, *tick, view),
            Reply::Dropped { view } => write_dropped(out, view),
            Reply::Views { views } => write_views(out, views),
            Reply::Steps { steps } => write_steps(out, steps),
            Reply::Index { label, key } => write_index(out, label, key),
        }
    }
}

fn write_statement(
    out: &mut Writer,
    changed: &Changed,
    columns: &Sequence<Text>,
    rows: &Sequence<Row>,
) -> Result<(), AllocError>
    ensures tokens { OnOk result (out.new.tokens ≡ out.old.tokens ++ tokens_of (statement_json changed.now columns.now rows.now)) }
    ensures before { out.new.before ≡ out.old.before }
{
    out.begin_object()?;
    write_field(out, "changed", changed)?;
    write_field(out, "columns", columns)?;
    write_field(out, "rows", rows)?;
    out.end_object()
}

impl WriteJson for Changed {
    ghost json = { changed_json };

    fn write_json(&self, out: &mut Writer) -> Result<(), AllocError> {
        out.begin_array()?;
        out.u64(self.nodes_made)?;
        out.u64(self.nodes_gone)?;
        out.u64(self.rels_made)?;
        out.u64(self.rels_gone)?;
        out.end_array()
    }
}

fn write_made(
    out: &mut Writer,
    columns: &Sequence<Text>,
    tick: u64,
    name: &Text,
) -> Result<(), AllocError>
    ensures tokens { OnOk result (out.new.tokens ≡ out.old.tokens ++ tokens_of (made_json columns.now tick name.now)) }
    ensures before { out.new.before ≡ out.old.before }
{
    out.begin_object()?;
    write_field(out, "columns", columns)?;
    write_field(out, "tick", &tick)?;
    write_field(out, "view", name)?;
    out.end_object()
}

fn write_rows(
    out: &mut Writer,
    rows: &Sequence<(Row, u64)>,
    tick: u64,
    name: &Text,
) -> Result<(), AllocError>
    ensures tokens { OnOk result (out.new.tokens ≡ out.old.tokens ++ tokens_of (rows_json rows.now tick name.now)) }
    ensures before { out.new.before ≡ out.old.before }
{
    out.begin_object()?;
    write_field(out, "rows", rows)?;
    write_field(out, "tick", &tick)?;
    write_field(out, "view", name)?;
    out.end_object()
}

fn write_entries(
    out: &mut Writer,
    entries: &Sequence<Entry>,
    tick: u64,
    name: &Text,
) -> Result<(), AllocError>
    ensures tokens { OnOk result (out.new.tokens ≡ out.old.tokens ++ tokens_of (entries_json entries.now tick name.now)) }
    ensures before { out.new.before ≡ out.old.before }
{
    out.begin_object()?;
    write_field(out, "entries", entries)?;
    write_field(out, "tick", &tick)?;
    write_field(out, "view", name)?;
    out.end_object()
}

/// An entry of one view, whose name stands beside all of them.
impl WriteJson for Entry {
    ghost use Rattle.cy_shell.specs.Replies.{change_json};

    ghost json = { change_json };

    fn write_json(&self, out: &mut Writer) -> Result<(), AllocError> {
        out.begin_object()?;
        write_field(out, "added", &self.change.added)?;
        write_field(out, "removed", &self.change.removed)?;
        write_field(out, "tick", &self.tick)?;
        out.end_object()
    }
}

fn write_dropped(out: &mut Writer, name: &Text) -> Result<(), AllocError>
    ensures tokens { OnOk result (out.new.tokens ≡ out.old.tokens ++ tokens_of (dropped_json name.now)) }
    ensures before { out.new.before ≡ out.old.before }
{
    out.begin_object()?;
    write_field(out, "dropped", name)?;
    out.end_object()
}

fn write_views(out: &mut Writer, views: &Sequence<ViewListing>) -> Result<(), AllocError>
    ensures tokens { OnOk result (out.new.tokens ≡ out.old.tokens ++ tokens_of (views_json views.now)) }
    ensures before { out.new.before ≡ out.old.before }
{
    out.begin_object()?;
    write_field(out, "views", views)?;
    out.end_object()
}

impl WriteJson for ViewListing {
    ghost use Rattle.cy_shell.specs.Replies.{listing_json};

    ghost json = { listing_json };

    fn write_json(&self, out: &mut Writer) -> Result<(), AllocError> {
        out.begin_object()?;
        write_field(out, "columns", &self.columns)?;
        write_field(out, "made", &self.made)?;
        write_field(out, "name", &self.name)?;
        out.end_object()
    }
}

fn write_steps(out: &mut Writer, steps: &Sequence<(Text, u64)>) -> Result<(), AllocError>
    ensures tokens { OnOk result (out.new.tokens ≡ out.old.tokens ++ tokens_of (steps_json steps.now)) }
    ensures before { out.new.before ≡ out.old.before }
{
    out.begin_object()?;
    write_field(out, "steps", steps)?;
    out.end_object()
}

/// The name of a view with its steps.
impl WriteJson for (Text, u64) {
    ghost use Rattle.cy_shell.specs.Replies.{upkeep_json};

    ghost json = { upkeep_json };

    fn write_json(&self, out: &mut Writer) -> Result<(), AllocError> {
        out.begin_array()?;
        self.0.write_json(out)?;
        self.1.write_json(out)?;
        out.end_array()
    }
}

fn write_index(out: &mut Writer, label: &Text, key: &Text) -> Result<(), AllocError>
    ensures tokens { OnOk result (out.new.tokens ≡ out.old.tokens ++ tokens_of (index_json label.now key.now)) }
    ensures before { out.new.before ≡ out.old.before }
{
    out.begin_object()?;
    out.key("index")?;
    out.begin_array()?;
    out.string(label.as_str())?;
    out.string(key.as_str())?;
    out.end_array()?;
    out.end_object()
}

/// An entry with the name of its view.
impl WriteJson for (Text, Entry) {
    ghost use Rattle.cy_shell.specs.Replies.{entry_json};

    ghost json = { entry_json };

    fn write_json(&self, out: &mut Writer) -> Result<(), AllocError> {
        out.begin_object()?;
        write_field(out, "added", &self.1.change.added)?;
        write_field(out, "removed", &self.1.change.removed)?;
        write_field(out, "tick", &self.1.tick)?;
        write_field(out, "view", &self.0)?;
        out.end_object()
    }
}

/// A fault's offset, where it has one, and its number.
#[derive(Clone, Copy)]
pub(crate) struct FaultObject {
    pub(crate) at: Option<usize>,
    pub(crate) code: u16,
}

impl WriteJson for FaultObject {
    ghost use Rattle.cy_shell.specs.Replies.{fault_json};

    ghost json = { λ fault. fault_json fault.at fault.code };

    fn write_json(&self, out: &mut Writer) -> Result<(), AllocError> {
        out.begin_object()?;
        write_field(out, "at", &self.at)?;
        write_field(out, "code", &u64::from(self.code))?;
        out.key("error")?;
        out.string(word(self.code))?;
        out.end_object()
    }
}

/// An offset, or null.
impl WriteJson for Option<usize> {
    ghost json = { offset_json };

    fn write_json(&self, out: &mut Writer) -> Result<(), AllocError> {
        match self {
            Some(at) => out.u64(*at as u64),
            None => out.token(Token::Null),
        }
    }
}
