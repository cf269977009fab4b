//! Clauses and patterns (openCypher 9, *Clauses* and *Patterns*, narrowed to this profile).

use crate::expressions::{Expr, Variable};
use cy_values::Text;

/// A statement: its queries, one or more. Where there are several, UNION puts their rows together.
#[derive(Drop)]
pub struct Statement {
    pub queries: Vec<Query>,
    /// Whether ALL stands after each UNION, which keeps rows that are the same; false where there is one query alone.
    pub all: bool,
}

/// A query: its clauses, one or more, in the order in which they are executed.
#[derive(Drop)]
pub struct Query {
    pub clauses: Vec<Clause>,
}

pub enum Clause {
    Match(Match),
    Unwind(Unwind),
    With(With),
    Return(Projection),
    /// CREATE, with its paths, one or more.
    Create(Vec<Path>),
    Set(Vec<SetItem>),
    Remove(Vec<RemoveItem>),
    Delete(Delete),
}

/// Called from each of the many places where a clause is dropped.
impl Drop for Clause {
    fn drop(self) {
        match self {
            Clause::Match(_) | Clause::Unwind(_) | Clause::With(_) | Clause::Return(_) => {}
            Clause::Create(_) | Clause::Set(_) | Clause::Remove(_) | Clause::Delete(_) => {}
        }
    }
}

/// MATCH or OPTIONAL MATCH: the paths, one or more, and what stands after WHERE.
#[derive(Drop)]
pub struct Match {
    pub optional: bool,
    pub paths: Vec<Path>,
    pub filter: Where,
}

/// What stands after WHERE: a condition, if there is one, and paths; nothing of both where there is no WHERE.
#[derive(Drop)]
pub struct Where {
    pub test: Option<Expr>,
    pub paths: Vec<PathTest>,
}

/// A path as a condition: it has to be there, or, where it is denied, must not be there.
#[derive(Drop)]
pub struct PathTest {
    pub denied: bool,
    pub path: Path,
}

/// `UNWIND list AS variable`
#[derive(Drop)]
pub struct Unwind {
    pub list: Expr,
    pub variable: Variable,
}

/// WITH: a projection, and what stands after WHERE.
#[derive(Drop)]
pub struct With {
    pub projection: Projection,
    pub filter: Where,
}

/// What WITH and RETURN make of the rows: items, one or more, in an order, of which some are cut.
#[derive(Drop)]
pub struct Projection {
    pub distinct: bool,
    pub items: Vec<Item>,
    pub order: Vec<Key>,
    pub skip: Option<u64>,
    pub limit: Option<u64>,
}

/// A column and the expression that fills it.
#[derive(Drop)]
pub struct Item {
    pub expression: Expr,
    pub column: Text,
    /// Whether the column stands after AS; else it is the variable's name, or the expression as it is written.
    pub named: bool,
}

/// A key of ORDER BY.
#[derive(Drop)]
pub struct Key {
    pub expression: Expr,
    pub descending: bool,
}

/// A path of a pattern: a node, and the steps that lead on from it.
#[derive(Drop)]
pub struct Path {
    pub start: NodePattern,
    pub steps: Vec<Step>,
}

/// A relationship, and the node at its other end.
#[derive(Drop)]
pub struct Step {
    pub relationship: RelationshipPattern,
    pub node: NodePattern,
}

pub struct NodePattern {
    pub variable: Option<Variable>,
    pub labels: Vec<Text>,
    /// The entries of the map, if one is written.
    pub properties: Option<Vec<MapEntry>>,
}

/// Called from each of the many places where the pattern of a node is dropped.
impl Drop for NodePattern {
    fn drop(self) {
        let NodePattern {
            variable: _,
            labels: _,
            properties: _,
        } = self;
    }
}

pub struct RelationshipPattern {
    pub variable: Option<Variable>,
    pub direction: Direction,
    /// The types of which it may be one; none: any.
    pub types: Vec<Text>,
    pub length: Option<Length>,
    pub properties: Option<Vec<MapEntry>>,
}

/// Called from each of the many places where the pattern of a relationship is dropped.
impl Drop for RelationshipPattern {
    fn drop(self) {
        let RelationshipPattern {
            variable: _,
            direction: _,
            types: _,
            length: _,
            properties: _,
        } = self;
    }
}

/// Which way a relationship points, as the path is written.
#[derive(Clone, Copy, Debug, PartialEq, Eq)]
pub enum Direction {
    /// `-->`
    Right,
    /// `<--`
    Left,
    /// `--` or `<-->`
    Either,
}

/// How many relationships follow one another in the place of one: at least and at most.
#[derive(Clone, Copy, Debug, PartialEq, Eq)]
pub struct Length {
    pub least: u16,
    pub most: Option<u16>,
}

/// An entry of a property map.
#[derive(Drop)]
pub struct MapEntry {
    pub key: Text,
    pub value: Expr,
}

/// An item of SET.
#[derive(Drop)]
pub enum SetItem {
    Property(Variable, Text, Expr),
    Labels(Variable, Vec<Text>),
}

/// An item of REMOVE.
#[derive(Drop)]
pub enum RemoveItem {
    Property(Variable, Text),
    Labels(Variable, Vec<Text>),
}

/// DELETE or DETACH DELETE of what the variables, one or more, stand for.
#[derive(Drop)]
pub struct Delete {
    pub detach: bool,
    pub variables: Vec<Variable>,
}
