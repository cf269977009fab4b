//! What a line is answered with.

use cy_bags::Entry;
use cy_engine_views::ViewListing;
use cy_values::{Row, Sequence, Text};

/// How many nodes and relationships a line made and removed.
#[derive(Clone, Copy, Debug, PartialEq, Eq)]
pub struct Changed {
    pub nodes_made: u64,
    pub nodes_gone: u64,
    pub rels_made: u64,
    pub rels_gone: u64,
}

/// The answer to a line that is executed.
#[derive(Debug, Drop)]
pub enum Reply {
    /// The line has no token.
    Nothing,
    /// A statement was executed. Without RETURN there are no columns and no rows.
    Statement {
        changed: Changed,
        columns: Sequence<Text>,
        rows: Sequence<Row>,
    },
    /// A view was made, at this tick.
    Made {
        columns: Sequence<Text>,
        tick: u64,
        view: Text,
    },
    /// The rows of a view with their counts, in canonical order, each row once.
    Rows {
        rows: Sequence<(Row, u64)>,
        tick: u64,
        view: Text,
    },
    /// What changed in the rows of a view since a tick, in the order of the ticks.
    Entries {
        entries: Sequence<Entry>,
        /// The tick now.
        tick: u64,
        view: Text,
    },
    /// A view is gone.
    Dropped {
        view: Text,
    },
    /// The views, in the order in which they were made.
    Views {
        views: Sequence<ViewListing>,
    },
    /// The steps that the upkeep of each view took for the last line that changed the graph while the view stood, 0 where there was none.
    Steps {
        steps: Sequence<(Text, u64)>,
    },
    /// An index was made.
    Index {
        label: Text,
        key: Text,
    },
}
