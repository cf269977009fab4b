//! Runs over lists of lines.

ghost use Rattle.std.specs.Prelude.{◌≡◌, IfErr, IfOk, OnErr, map};
ghost use Rattle.cy_engine.specs.Headline.{AnswersWithHeadline};
ghost use Rattle.cy_engine.specs.KeptRuns.{AreKeptThrough};

use crate::laws::headline;
use cy_engine_lines::{Engine, Fault, Reply};
use std::alloc::Global;

/// Answers lines one after another. Where the answers themselves find no room, no line is answered.
///
/// Where the engine is new, the headline holds of the lines: the graph is the one that the statements among them that were executed
/// make of the empty graph; the rows of each view are those that its query means on that graph, and they are the rows that it
/// had when it was made, changed by its entries one after another, each of which is the exact difference that its line made; and
/// without the refused lines all other answers, entries and the graph are the same. Through all lines the views are kept up as `Engine::line`
/// promises.
pub fn answer_all(
    alloc: Global,
    engine: &mut Engine,
    lines: &[&str],
) -> Result<Vec<Result<Reply, Fault>>, Fault>
    ensures run { IfOk result (λ results. (run : AnswersWithHeadline engine.old engine.new (map (λ line. line.now) lines.now) results.items) × AreKeptThrough engine.old engine.new run.run.events) }
    ensures refused { IfErr result (λ fault. fault ≡ Fault.NoMemory) }
    ensures err { OnErr result (engine.new ≡ engine.old) }
{
    let mut results = Vec::with_capacity(alloc, lines.len())?;
    for line in lines {
        results.push(engine.line(line)).unwrap();
    }
    headline();
    Ok(results)
}
