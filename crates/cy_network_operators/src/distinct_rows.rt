//! How a change goes through `Distinct`.

ghost use Rattle.std.specs.Prelude.{List, IfOk};
ghost use Rattle.std.specs.List.{All};
ghost use Rattle.cy_values.specs.declared.rows.Cell.{Cell};
ghost use Rattle.cy_planner_algebra.specs.Meaning.{each_once};
ghost use Rattle.cy_network_operators.specs.Deltas.{IsBounded, IsDelta, counts};

use crate::deltas::add_row_delta;
use cy_network_memory::RowDelta;
use cy_values::Fault;
use std::alloc::Global;

/// What changes of the rows, each once, where the rows change: a row comes with its first and goes with its last. Fails only when
/// out of memory.
pub fn distinct(alloc: Global, deltas: Vec<RowDelta>) -> Result<Vec<RowDelta>, Fault>
    ensures once { IfOk result (λ changed. (before after : List (List Cell)) → IsDelta (counts before) (counts after) deltas.items
        → IsDelta (counts (each_once before)) (counts (each_once after)) changed.items) }
    ensures bounded { IfOk result (λ changed. All IsBounded changed.items) }
{
    let mut changed = Vec::new(alloc);
    for row_delta in deltas {
        add_row_delta(
            &mut changed,
            row_delta.row,
            row_delta.before.min(1),
            row_delta.after.min(1),
        )?;
    }
    Ok(changed)
}
