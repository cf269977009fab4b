//! The calls of an engine, with ample memory.

use cy_engine::{Engine, answer_all};
use cy_values::{Cell, Row, Value};
use std::alloc::Global;
use std::process::Abort;
use std::test::Fail;

// Whether the rows are of one integer each, with these counts.
fn are_rows(rows: &[(Row, u64)], wanted: &[(i64, u64)]) -> bool {
    for ((row, count), (number, times)) in rows.iter().zip(wanted) {
        let is_row = matches!(row.as_slice(), [Cell::Value(Value::Int(held))] if held == number);
        if !is_row || count != times {
            return false;
        }
    }
    rows.len() == wanted.len()
}

const LINES: [&str; 6] = [
    "CREATE (:A {k: 7})",
    "\t",
    ":view v MATCH (n:A) RETURN n.k",
    "CREATE (:A {k: 7}",
    "CREATE (:A {k: -1})",
    "CREATE (:A {k: 7})",
];

// The lines are answered, but for the fourth.
fn expect_answers(rt: &impl Abort, alloc: Global, engine: &mut Engine) -> Result<(), Fail> {
    let answers = answer_all(alloc, engine, &LINES).ok().ok_or("answers")?;
    assert!(rt; answers.len() == 6);
    for (number, answer) in answers.iter().enumerate() {
        assert!(rt; answer.is_err() == (number == 3), "{number}");
    }
    Ok(())
}

// The view has the rows that the lines leave.
fn expect_rows(rt: &impl Abort, engine: &Engine) -> Result<(), Fail> {
    let rows = engine.rows("v").ok().ok_or("rows")?;
    assert!(rt; engine.tick() == 4 && are_rows(rows.as_slice(), &[(-1, 1), (7, 2)]));
    Ok(())
}

// The entry of the last line is there until the next one.
fn expect_entry(rt: &impl Abort, engine: &mut Engine) -> Result<(), Fail> {
    let entry = engine.last("v").ok_or("entry")?;
    assert!(rt; entry.tick == 4 && entry.change.removed.as_slice().is_empty());
    assert!(rt; are_rows(entry.change.added.as_slice(), &[(7, 1)]));
    assert!(rt; engine.last("w").is_none() && engine.entries().len() == 1);
    assert!(rt; engine.line(":rows v").is_ok() && engine.entries().is_empty());
    Ok(())
}

fn expect_calls(rt: &impl Abort, alloc: Global, engine: &mut Engine) -> Result<(), Fail> {
    expect_answers(rt, alloc, engine)?;
    expect_rows(rt, engine)?;
    expect_entry(rt, engine)
}

#[test]
fn answers_lines(rt: HostRuntime) -> Result<(), Fail> {
    let mut engine = Engine::new(rt.alloc(), 64);
    expect_calls(&rt, rt.alloc(), &mut engine)
}
