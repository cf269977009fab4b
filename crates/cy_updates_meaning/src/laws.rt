//! What holds of the meaning of updating clauses and statements.

ghost use Rattle.std.specs.Prelude.{◌≡◌, false, true, List, None, IfOk, IsTrue};
ghost use Rattle.std.specs.List.{AllByRecursion, list_all, list_any};
ghost use Rattle.cy_values.specs.declared.rows.Cell.{Cell};
ghost use Rattle.cy_trees.specs.Trees.{Clause, Statement};
ghost use Rattle.cy_scope.specs.ClauseFaults.{clause_fault};
ghost use Rattle.cy_scope.specs.ClauseScopes.{scope_after};
ghost use Rattle.cy_scope.specs.Resolved.{resolved_clause};
ghost use Rattle.cy_scope_kinds.specs.Rows.{row_fits};
ghost use Rattle.cy_scope_kinds.specs.Scopes.{Scope};
ghost use Rattle.cy_scope.specs.Views.{ends_with_return, is_update};
ghost use Rattle.cy_graph.specs.Graph.{State, IsGraph};
ghost use Rattle.cy_values.specs.Bag.{IsSameBag};
ghost use Rattle.cy_oneshot_meaning.specs.Reading.{AreInGraph};
ghost use Rattle.cy_updates_meaning.specs.Bags.{IsSameProgress, IsSameResult};
ghost use Rattle.cy_updates_meaning.specs.Counts.{AgreeWith, counts_between};
ghost use Rattle.cy_updates_meaning.specs.Faults.{each_in_turn};
ghost use Rattle.cy_updates_meaning.specs.Readings.{reading_outcome, rows_outcome};
ghost use Rattle.cy_updates_meaning.specs.Statements.{Progress, after_clause, statement_outcome, updated};

use cy_oneshot_meaning::laws::{clauses_on_bags, rows_in_graph};
use cy_values::row_order_laws;

/// What a clause leaves, and what several leave one after another, depends on the table as a bag: on one graph and two tables in
/// which each row counts as often, an updating clause has the same outcome, and clauses one after another leave the same graph, the
/// same counts and rows that count as often, or the same fault (Francis et al., tables; canonical order: own).
pub fn statements_on_bags()
    ensures updates { (graph : State) (clause : Clause) (rows others : List (List Cell)) → IsSameBag rows others
        → updated graph clause rows ≡ updated graph clause others }
    ensures clauses { (clauses : List Clause) (one other : Progress) → IsSameProgress one other
        → IsSameResult (each_in_turn after_clause clauses one) (each_in_turn after_clause clauses other) }
{
    row_order_laws();
    clauses_on_bags();
}

/// A statement without an updating clause leaves the graph, makes and removes nothing, and means what its queries mean, of which one
/// without RETURN gives no table. Where each ends with RETURN, its rows are those of the statement, put together by UNION if there are
/// several queries (openCypher 9, Reading clauses, UNION).
pub fn reading_statements()
    ensures reading { (graph : State) (statement : Statement) → list_any (λ q. list_any is_update q.clauses) statement.queries ≡ false
        → statement_outcome graph statement ≡ reading_outcome graph statement }
    ensures rows { (graph : State) (statement : Statement) → list_all (λ q. ends_with_return q.clauses) statement.queries ≡ true
        → reading_outcome graph statement ≡ rows_outcome graph statement }
{}

/// What an updating clause leaves of a graph is a graph: numbers rise, ends are there, and all that it stores can be stored. The rows
/// after it name what is in that graph, where those before it name what is in the graph before (own).
pub fn graphs_after()
    ensures graphs { (graph : State) (clause : Clause) (rows : List (List Cell)) → IsGraph graph → AreInGraph graph.content rows
        → IfOk (updated graph clause rows) (λ after. IsGraph after.graph) }
    ensures rows { (graph : State) (clause : Clause) (rows : List (List Cell)) → IsGraph graph → AreInGraph graph.content rows
        → IfOk (updated graph clause rows) (λ after. AreInGraph after.graph.content after.rows) }
{}

/// The counts agree with the graphs: what is made takes the next numbers, one each, and what was there or is made is there afterwards
/// or is gone (own).
pub fn counts_agree()
    ensures clauses { (graph : State) (clause : Clause) (rows : List (List Cell)) → IsGraph graph → AreInGraph graph.content rows
        → IfOk (updated graph clause rows) (λ after. AgreeWith graph after.graph (counts_between graph.content after.graph.content)) }
    ensures statements { (graph : State) (statement : Statement) → IsGraph graph
        → IfOk (statement_outcome graph statement) (λ outcome. IsGraph outcome.graph × AgreeWith graph outcome.graph outcome.counts) }
{
    rows_in_graph();
}

/// The rows after an updating clause that has no fault of scope fit the scope after it, where those before it fit the scope before:
/// CREATE gives each new variable a column with a node or a relationship, and the others leave the rows (own).
pub fn rows_fit_scopes()
    ensures { (graph : State) (scope : Scope) (clause : Clause) (rows : List (List Cell)) → clause_fault scope clause ≡ None → is_update clause ≡ true
        → AllByRecursion (λ row. IsTrue (row_fits scope row)) rows
        → IfOk (updated graph (resolved_clause scope (scope_after scope clause) clause) rows) (λ after. AllByRecursion (λ row. IsTrue (row_fits (scope_after scope clause) row)) after.rows) }
{}
