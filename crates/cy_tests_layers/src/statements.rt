//! Statements on stores, also on those whose next numbers are the last ones.

ghost use Rattle.std.specs.Prelude.{◌≡◌, ◌≤◌, IsNone, OnOk, map};
ghost use Rattle.std.specs.List.{list_any};
ghost use Rattle.cy_trees.specs.TreeModels.{query_of};
ghost use Rattle.cy_scope.specs.Views.{is_update};
ghost use Rattle.cy_graph.specs.Graph.{number_end};

use cy_expr::eval_sure;
use cy_index::Store;
use cy_lexer::lex;
use cy_oneshot::{answer, read_clause, unit};
use cy_parser::parse;
use cy_scope::{Checked, check, has_update, is_update};
use cy_trees::{Expr, Query, Variable};
use cy_updates::execute;
use cy_values::{Cell, Fault, NodeId, Row, Sequence, Text};
use std::alloc::Global;
use std::process::Abort;
use std::test::Fail;

/// The last number of nodes is left: statements, each with the number of its fault, or 0.
const LAST_NODE: &str = "\
CREATE (), () => 53
UNWIND [1, 2] AS x CREATE () => 53
CREATE () => 0
CREATE () => 53";

/// The last number of relationships is left.
const LAST_REL: &str = "\
CREATE ()-[:T]->()-[:T]->({x: 1 / 0}) => 53
OPTIONAL MATCH (n) CREATE ()-[:T]->()-[:T]->(n) => 51
UNWIND [1, 2] AS x CREATE ()-[:T]->() => 53
CREATE ()-[:T]->() => 0
MATCH (n) CREATE (n)-[:T]->(n) => 53";

fn statement_of(alloc: Global, line: &str) -> Result<Checked, Fail> {
    let tokens = lex(alloc, line)?;
    let statement = parse(alloc, tokens.as_slice(), line)?;
    Ok(check(alloc, statement)?)
}

// Executes a statement, and gives the number of its fault, or 0.
fn executed(alloc: Global, store: &mut Store, line: &str) -> Result<u16, Fail>
    requires { IsNone store.old.graph.was }
    ensures { OnOk result (IsNone store.new.graph.was) }
{
    match execute(alloc, store, &statement_of(alloc, line)?) {
        Ok(_answer) => {
            store.commit();
            Ok(0)
        }
        Err(fault) => Ok(fault.code()),
    }
}

// Whether one of the queries has an updating clause.
fn any_updates(queries: &[Query]) -> bool
    ensures { result ≡ list_any (λ q. list_any is_update q.clauses) (map query_of queries.now) }
{
    for query in queries {
        if has_update(&query.clauses) {
            return true;
        }
    }
    false
}

// The rows of a query.
fn answered(alloc: Global, store: &Store, line: &str) -> Result<Vec<Row>, Fail> {
    let checked = statement_of(alloc, line)?;
    if any_updates(&checked.statement().queries) {
        return Err(Fail::from("no query"));
    }
    Ok(answer(alloc, store, &checked)?.rows)
}

// Answers a query, and reads the first clause of one by itself.
fn expect_reads(rt: &impl Abort, alloc: Global, store: &Store) -> Result<(), Fail> {
    assert_eq!(rt;
        answered(alloc, store, "UNWIND [2, 1] AS x RETURN x")?.len(),
        2
    );
    let checked = statement_of(alloc, "OPTIONAL MATCH (n:Z) RETURN n")?;
    let query = checked.statement().queries.first().ok_or("no query")?;
    let clause = query.clauses.first().ok_or("no clause")?;
    if !is_update(clause) {
        let table = read_clause(alloc, store, unit(alloc)?, clause)?;
        assert_eq!(rt; (table.columns.len(), table.rows.len()), (1, 1));
    }
    Ok(())
}

// Statements have these faults on a store.
fn expect_faults(rt: &impl Abort, alloc: Global, store: &mut Store, cases: &str) -> Result<(), Fail>
    requires { IsNone store.old.graph.was }
{
    for case in cases.lines() {
        let (line, wanted) = case.split_once(" => ").ok_or("no fault")?;
        let code = executed(alloc, store, line)?;
        assert_eq!(rt; wanted.parse::<u16>(), Ok(code), "{line}");
    }
    expect_reads(rt, alloc, store)
}

// Statements have these faults on a store with these next numbers.
fn expect_faults_from(
    rt: &impl Abort,
    alloc: Global,
    node: u64,
    rel: u64,
    cases: &str,
) -> Result<(), Fail>
    requires node_from { 1 ≤ node }
    requires node_to { node ≤ number_end }
    requires rel_from { 1 ≤ rel }
    requires rel_to { rel ≤ number_end }
{
    let mut store = Store::starting_at(alloc, node, rel);
    expect_faults(rt, alloc, &mut store, cases)
}

#[test]
fn last_numbers(rt: HostRuntime) -> Result<(), Fail> {
    expect_faults_from(&rt, rt.alloc(), 1 << 40, 1, LAST_NODE)?;
    expect_faults_from(&rt, rt.alloc(), 1, 1 << 40, LAST_REL)
}

// The cell of the only column of a row, which is a node.
fn column(alloc: Global) -> Result<Cell, Fault> {
    let variable = Expr::Variable(Variable {
        name: Text::from_str(alloc, "n")?,
        column: Some(0),
    });
    let row = Sequence::new(vec![in alloc; Cell::Node(NodeId(7))]?);
    eval_sure(alloc, &variable, &row)
}

#[test]
fn sure_expressions(rt: HostRuntime) -> Result<(), Fail> {
    assert_eq!(rt; column(rt.alloc())?, Cell::Node(NodeId(7)));
    Ok(())
}
