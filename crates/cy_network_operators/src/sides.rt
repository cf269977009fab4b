//! What changes of the rows of both inputs of an operator.

use cy_network_memory::RowDelta;

/// What changes of the rows of the two operators right below an operator.
#[derive(Drop)]
pub struct SideDeltas {
    pub left: Vec<RowDelta>,
    pub right: Vec<RowDelta>,
}
