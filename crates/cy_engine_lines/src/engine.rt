//! The engine: one line at a time.

ghost use Rattle.std.specs.Prelude.{◌≡◌, ◌≤◌, ◌⊎◌, ℕ, List, [], IfErr, IfOk, IsOk, IsSome, OnErr, Ok, Err};
ghost use Rattle.std.specs.Option.{option_copied};
ghost use Rattle.cy_trees.specs.TreeModels.{statement_of};
ghost use Rattle.cy_oneshot_meaning.specs.Queries.{statement_columns};
ghost use Rattle.cy_updates.specs.Answers.{outcome_seen};
ghost use Rattle.cy_graph.specs.Graph.{State};
ghost use Rattle.cy_network_sources.specs.Changes.{before_change};
ghost use Rattle.cy_engine_views.specs.Upkeep.{StandFor, held_in, upkeep_in};
ghost use Rattle.cy_engine_views.specs.RegisteredViews.{View, entry_at};
ghost use Rattle.cy_engine_lines.specs.Model.{new_machine, state_of};
ghost use Rattle.cy_engine_lines.specs.Requests.{DropOf, IndexOf, StatementOf, ViewOf};
ghost use Rattle.cy_engine_lines.specs.State.{last_tick};
ghost use Rattle.cy_engine_lines.specs.EngineStep.{AreRows, changed_by};
ghost use Rattle.cy_engine_lines.specs.KeptStep.{KeptStep, kept_state_of};
ghost use Rattle.cy_engine_lines.specs.Verdicts.{making_verdict, next_tick, rows_verdict};
ghost use Rattle.cy_engine_lines.specs.internal.Stages.{AnswersKept, HasEffect, HasNoEffect, ListsSteps, ListsViews, ShowsRows, ShowsSince};

use crate::faults::Fault;
use crate::reading::{read_query, read_statement};
use crate::replies::{Changed, Reply};
use crate::requests::{Request, read_request};
use cy_bags::Entry;
use cy_engine_views::{Views, columns_of};
use cy_feeds::Answer;
use cy_index::Store;
use cy_lexer::{Token, lex};
use cy_oneshot::Table;
use cy_scope::ViewQuery;
use cy_updates::{StatementAnswer, execute};
use cy_values::{Duplicate, Row, Sequence, Text};
use std::alloc::Global;
use std::marker::Model;

/// The last tick, 2^62 - 1.
const LAST_TICK: u64 = (1 << 62) - 1;

/// How many views there may be.
const VIEW_LIMIT: usize = 256;

/// A property graph with its views. It takes lines and answers them; a refused line leaves it as it was.
pub struct Engine {
    alloc: Global,
    store: Store,
    views: Views,
    tick: u64,
    history: usize,
    /// What the last line changed in the rows of views.
    entries: Sequence<(Text, Entry)>,
}

/// Called from each place where an engine is dropped.
impl Drop for Engine {
    fn drop(self) {
        let Engine {
            alloc: _,
            store: _,
            views: _,
            tick: _,
            history: _,
            entries: _,
        } = self;
    }
}

// What a change of the content does: the tick that follows, and the entries of the views.
#[derive(Drop)]
struct Effect {
    tick: u64,
    entries: Sequence<(Text, Entry)>,
}

impl Model for Engine {
    ghost use Rattle.std.specs.Coded.{codes};
    ghost use Rattle.cy_trees.specs.contracts.expressions.Expr as expr;
    ghost use Rattle.cy_planner_algebra.specs.contracts.operators.Operator as operator;
    ghost use Rattle.cy_engine_lines.specs.Model.{Machine};

    ghost Value = { Machine };

    ghost coded = { Prim.hlevel (codes, expr.the_row.coded, operator.the_row.coded) };

    ghost use Rattle.cy_engine_lines.specs.Fields.{machine_of};
    ghost use Rattle.cy_engine_lines.specs.internal.Representation.{IsAtRest};

    ghost view = { λ e. machine_of e.store e.views e.tick e.history e.entries };

    ghost invariant = { λ e. IsAtRest e.store.graph e.views e.tick e.history };
}

impl Engine {
    /// An engine with an empty graph, no index and no view, at tick 0. History is how many entries of a view's feed are kept.
    pub fn new(alloc: Global, history: usize) -> Self
        requires from { 1 ≤ history }
        requires to { history ≤ 4096 }
        ensures { result ≡ new_machine history }
    {
        Engine {
            alloc,
            store: Store::new(alloc),
            views: Views::new(alloc),
            tick: 0,
            history,
            entries: Sequence::new(Vec::new(alloc)),
        }
    }

    /// Answers a line. A refused line leaves the engine as it was.
    ///
    /// The line is made of tokens, or `Lex`. A colon begins a command: `UnknownCommand` or `BadArgument` where it isn't one. A
    /// statement is, in this order, `Parse`, `Scope`, `Update` where its meaning on the graph is a fault, or `Full` where it would
    /// change the content of the graph and the tick is the last. A view is, in this order, `Parse`, `Scope`, `View`,
    /// `ViewNameTaken`, `TooManyViews`, `Full` where the last tick was given out, or `PlanTooLarge` where its query weighs too much. Rows,
    /// what changed since a tick and the end of a view are refused as `NoSuchView`, a tick above the current one then as `FutureTick`,
    /// an index as `IndexThere`. `TooManyRows` may refuse a statement or a view that is otherwise executed, where a part of a plan has a row
    /// that counts more than 2^62 - 1, and `NoMemory` any line that has tokens and isn't too long.
    pub fn line(&mut self, line: &str) -> Result<Reply, Fault>
        ensures { KeptStep (kept_state_of self.old) line.now result self.new.entries (kept_state_of self.new) }
    {
        let mut entries = Sequence::new(Vec::new(self.alloc));
        let answer = self.reply_to(line, &mut entries);
        self.entries = entries;
        answer
    }

    /// The number of the last line that changed the graph or made a view, 0 before the first.
    pub fn tick(&self) -> u64
        ensures { result ≡ self.now.tick }
    {
        self.tick
    }

    /// The rows of a view with their counts: what its query means on the graph, each row once, in canonical order.
    /// `NoSuchView` where there is no view of this name; else it fails only when out of memory.
    pub fn rows(&self, view: &str) -> Result<Vec<(Row, u64)>, Fault>
        ensures rows { IfOk result (λ rows. (found : View) × (rows_verdict view.now (state_of self.now) ≡ Ok found) × AreRows (state_of self.now) found rows.items) }
        ensures refused { IfErr result (λ fault. (rows_verdict view.now (state_of self.now) ≡ Err fault) ⊎ ((fault ≡ Fault.NoMemory) × IsOk (rows_verdict view.now (state_of self.now)))) }
    {
        self.views.rows(view)?.ok_or(Fault::NoSuchView)
    }

    /// The entries that the last line made, with the names of their views, in the order in which these were made: none
    /// after a refusal, a command or a line without tokens.
    pub fn entries(&self) -> &[(Text, Entry)]
        ensures { result.now ≡ self.now.entries }
    {
        self.entries.as_slice()
    }

    /// The entry that the last line made for a view, if it made one.
    pub fn last(&self, view: &str) -> Option<&Entry>
        ensures { option_copied result ≡ entry_at view.now self.now.entries }
    {
        let mut entries = self.entries.as_slice().iter();
        let (_, entry) = entries.find(|(name, _)| name.as_str() == view)?;
        Some(entry)
    }

    // Answers a line. The entries are none so far, and then those that it makes.
    fn reply_to(
        &mut self,
        line: &str,
        entries: &mut Sequence<(Text, Entry)>,
    ) -> Result<Reply, Fault>
        requires none { entries.old ≡ [] }
        ensures { KeptStep (kept_state_of self.old) line.now result entries.new (kept_state_of self.new) }
    {
        let tokens = lex(self.alloc, line)?;
        match read_request(self.alloc, tokens.as_slice(), line)? {
            Request::Nothing => Ok(Reply::Nothing),
            Request::Statement(tokens) => self.answer_statement(line, tokens, entries),
            Request::View { name, query } => self.make_view(line, name.as_str(), query),
            Request::Rows { name } => self.show_rows(name.as_str()),
            Request::Since { name, tick } => self.show_since(name.as_str(), tick),
            Request::ListOfViews => self.list_views(),
            Request::ListOfSteps => self.list_steps(),
            Request::Drop { name } => self.drop_view(name),
            Request::Index { label, key } => self.add_index(label, key),
        }
    }

    // Answers a statement. The entries are none so far, and then those that it makes. All that can fail comes before the change ends.
    fn answer_statement(
        &mut self,
        line: &str,
        tokens: &[Token],
        entries: &mut Sequence<(Text, Entry)>,
    ) -> Result<Reply, Fault>
        requires none { entries.old ≡ [] }
        ensures { AnswersKept line.now (StatementOf tokens.now) (kept_state_of self.old) result entries.new (kept_state_of self.new) }
    {
        let checked = read_statement(self.alloc, line, tokens)?;
        let outcome = execute(self.alloc, &mut self.store, &checked)?;
        match effect_of(self.alloc, &mut self.store, &mut self.views, self.tick) {
            Ok(None) => {
                self.store.commit();
                Ok(statement_reply(outcome))
            }
            Ok(Some(effect)) => {
                self.store.commit();
                self.views.settle(effect.tick);
                self.tick = effect.tick;
                *entries = effect.entries;
                Ok(statement_reply(outcome))
            }
            Err(fault) => {
                self.store.rollback();
                Err(fault)
            }
        }
    }

    // Makes a view.
    fn make_view(&mut self, line: &str, name: &str, tokens: &[Token]) -> Result<Reply, Fault>
        ensures { AnswersKept line.now (ViewOf name.now tokens.now) (kept_state_of self.old) result [] (kept_state_of self.new) }
    {
        let query = read_query(self.alloc, line, tokens)?;
        let made = self.next_view(name)?;
        let reply = made_reply(self.alloc, &query, made, name)?;
        self.views
            .make(name, query, made, self.history, &self.store)?;
        self.tick = made;
        Ok(reply)
    }

    // The tick of a view of this name that is made now.
    fn next_view(&self, name: &str) -> Result<u64, Fault>
        ensures made { result ≡ making_verdict name.now (state_of self.now) }
        ensures in_time { IfOk result (λ made. made ≤ last_tick) }
    {
        if self.views.contains(name) {
            return Err(Fault::ViewNameTaken);
        }
        if self.views.len() >= VIEW_LIMIT {
            return Err(Fault::TooManyViews);
        }
        next_tick(self.tick)
    }

    // Adds an index for a label and a key.
    fn add_index(&mut self, label: Text, key: Text) -> Result<Reply, Fault>
        ensures { (line : List ℕ) → AnswersKept line (IndexOf label key) (kept_state_of self.old) result [] (kept_state_of self.new) }
    {
        let reply = Reply::Index {
            label: label.copy(self.alloc)?,
            key: key.copy(self.alloc)?,
        };
        self.store.add_index(label, key)?;
        Ok(reply)
    }

    // Shows the rows of a view.
    fn show_rows(&self, name: &str) -> Result<Reply, Fault>
        ensures { ShowsRows (state_of self.now) name.now result }
    {
        let rows = self.rows(name)?;
        Ok(Reply::Rows {
            rows: Sequence::new(rows),
            tick: self.tick,
            view: Text::from_str(self.alloc, name)?,
        })
    }

    // Shows what changed in a view since a tick; or its rows, where some of that may be gone.
    fn show_since(&self, name: &str, tick: u64) -> Result<Reply, Fault>
        ensures { ShowsSince (state_of self.now) name.now tick result }
    {
        if !self.views.contains(name) {
            return Err(Fault::NoSuchView);
        }
        if tick > self.tick {
            return Err(Fault::FutureTick);
        }
        match self.views.since(name, tick)? {
            Some(Answer::Entries(entries)) => Ok(Reply::Entries {
                entries,
                tick: self.tick,
                view: Text::from_str(self.alloc, name)?,
            }),
            Some(Answer::Lagged) => self.show_rows(name),
            None => Err(Fault::NoSuchView),
        }
    }

    // Lists the views.
    fn list_views(&self) -> Result<Reply, Fault>
        ensures { ListsViews (state_of self.now) result }
    {
        Ok(Reply::Views {
            views: Sequence::new(self.views.listings()?),
        })
    }

    // Lists the steps of the views.
    fn list_steps(&self) -> Result<Reply, Fault>
        ensures { ListsSteps (kept_state_of self.now) result }
    {
        Ok(Reply::Steps {
            steps: Sequence::new(self.views.steps()?),
        })
    }

    // Takes a view out.
    fn drop_view(&mut self, name: Text) -> Result<Reply, Fault>
        ensures { (line : List ℕ) → AnswersKept line (DropOf name) (kept_state_of self.old) result [] (kept_state_of self.new) }
    {
        if !self.views.remove(name.as_str()) {
            return Err(Fault::NoSuchView);
        }
        Ok(Reply::Dropped { view: name })
    }
}

// The tick after this one.
fn next_tick(tick: u64) -> Result<u64, Fault>
    requires in_time { tick ≤ last_tick }
    ensures next { result ≡ next_tick tick }
    ensures in_time { IfOk result (λ next. next ≤ last_tick) }
{
    if tick == LAST_TICK {
        return Err(Fault::Full);
    }
    Ok(tick + 1)
}

// The answer to a statement that is executed.
fn statement_reply(outcome: StatementAnswer) -> Reply
    ensures { (graph : State) → let seen = outcome_seen graph outcome in result ≡ Reply.Statement (changed_by seen.counts) seen.columns seen.rows }
{
    let StatementAnswer {
        made_nodes,
        gone_nodes,
        made_rels,
        gone_rels,
        table,
    } = outcome;
    let Table { columns, rows } = table;
    Reply::Statement {
        changed: Changed {
            nodes_made: made_nodes,
            nodes_gone: gone_nodes,
            rels_made: made_rels,
            rels_gone: gone_rels,
        },
        columns: Sequence::new(columns),
        rows: Sequence::new(rows),
    }
}

// The answer to `:view`, where the view is made.
fn made_reply(alloc: Global, query: &ViewQuery, tick: u64, name: &str) -> Result<Reply, Fault>
    ensures reply { IfOk result (λ reply. reply ≡ Reply.Made (statement_columns (statement_of query.now)) tick name.now) }
    ensures memory { IfErr result (λ fault. fault ≡ Fault.NoMemory) }
{
    Ok(Reply::Made {
        columns: Sequence::new(columns_of(alloc, query)?),
        tick,
        view: Text::from_str(alloc, name)?,
    })
}

// What the open change does, if it changes the content. The views are then ready for its end; after a fault they are as before, and the change
// is to be rolled back.
fn effect_of(
    alloc: Global,
    store: &mut Store,
    views: &mut Views,
    tick: u64,
) -> Result<Option<Effect>, Fault>
    requires open { IsSome store.old.graph.was }
    requires stand { StandFor views.old (before_change store.old.graph).content tick }
    requires in_time { tick ≤ last_tick }
    ensures effect { IfOk result (HasEffect views.old views.new (before_change store.old.graph) store.old.graph.now tick) }
    ensures refused { IfErr result (HasNoEffect (upkeep_in views.old) (before_change store.old.graph) store.old.graph.now tick) }
    ensures back { OnErr result (StandFor views.new (before_change store.old.graph).content tick) }
    ensures held { held_in views.new ≡ held_in views.old }
    ensures same { store.new ≡ store.old }
{
    let effect = view_effect(alloc, store, views, tick)?;
    store.prepare()?;
    Ok(effect)
}

// What the open change does to the views and the tick, while the store isn't prepared.
fn view_effect(
    alloc: Global,
    store: &Store,
    views: &mut Views,
    tick: u64,
) -> Result<Option<Effect>, Fault>
    requires open { IsSome store.now.graph.was }
    requires stand { StandFor views.old (before_change store.now.graph).content tick }
    requires in_time { tick ≤ last_tick }
    ensures effect { IfOk result (HasEffect views.old views.new (before_change store.now.graph) store.now.graph.now tick) }
    ensures refused { IfErr result (HasNoEffect (upkeep_in views.old) (before_change store.now.graph) store.now.graph.now tick) }
    ensures back { OnErr result (StandFor views.new (before_change store.now.graph).content tick) }
    ensures held { held_in views.new ≡ held_in views.old }
{
    let touched = store.touched(alloc)?;
    if touched.is_empty() {
        return Ok(None);
    }
    let next = next_tick(tick)?;
    let entries = views.prepare(store, next)?;
    Ok(Some(Effect {
        tick: next,
        entries,
    }))
}
