//! How clauses begin, and where a statement stands between them.

/// The first word of a clause (openCypher 9, grammar of clauses).
#[derive(Clone, Copy)]
pub enum Opening {
    Match,
    /// Of OPTIONAL MATCH.
    Optional,
    Unwind,
    With,
    Return,
    Create,
    Set,
    Remove,
    Delete,
    /// Of DETACH DELETE.
    Detach,
}

/// What may follow the clauses before (openCypher 9, grammar of queries, narrowed to this profile).
#[derive(Clone, Copy)]
pub enum ClausePhase {
    /// Reading clauses, or none, since the beginning or the last WITH: any clause, but no end.
    Reading,
    /// Updating clauses: more of them, WITH, RETURN, or the end.
    Updating,
    /// RETURN or DELETE: the query's end alone.
    Ended,
}
