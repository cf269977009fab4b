//! The calls of a memory, one after another.

use cy_network_memory::{KeyedMemory, ListMemory, Listed, Made, Memory};
use cy_values::{Cell, Row, Sequence, Value};
use std::alloc::{AllocError, Global};
use std::process::Abort;
use std::test::Fail;

fn row_of(alloc: Global, numbers: &[i64]) -> Result<Row, AllocError> {
    let mut cells = Vec::new(alloc);
    for number in numbers {
        cells.push(Cell::Value(Value::Int(*number)))?;
    }
    Ok(Sequence::new(cells))
}

// Takes all records of a key, of which there are up to three: how many there are, and how often their rows counted and will count.
fn looked<M: Memory>(alloc: Global, memory: &mut M, key: i64) -> Result<(u64, u64, u64), Fail> {
    let (mut rows, mut before, mut after) = (0u64, 0u64, 0u64);
    let mut cursor = memory.look(alloc, &row_of(alloc, &[key])?)?;
    for _ in 0..3 {
        if let Some(record) = memory.take(alloc, &mut cursor)? {
            rows = rows.saturating_add(1);
            before = before.saturating_add(record.before);
            after = after.saturating_add(record.after);
        }
    }
    Ok((rows, before, after))
}

// Calls a memory of rows of two numbers, of which the first is the key, and gives its steps.
fn steps_of<M: Made + Listed>(rt: &impl Abort, alloc: Global) -> Result<u64, Fail> {
    let mut memory = M::new(alloc, vec![in alloc; 0]?);
    let (five, six) = (row_of(alloc, &[1, 5])?, row_of(alloc, &[1, 6])?);
    memory.stage(alloc, &five, 2)?;
    memory.stage(alloc, &six, 3)?;
    assert_eq!(rt; looked(alloc, &mut memory, 1)?, (2, 0, 5));
    assert_eq!(rt; memory.changes(alloc)?.len(), 2);
    memory.settle();
    memory.stage(alloc, &six, 1)?;
    assert_eq!(rt; memory.counts(&six), (3, 4));
    memory.abandon();
    assert_eq!(rt; looked(alloc, &mut memory, 1)?, (2, 5, 5));
    assert_eq!(rt; looked(alloc, &mut memory, 2)?, (0, 0, 0));
    assert_eq!(rt; memory.counted(alloc)?.len(), 2);
    Ok(memory.steps())
}

// A memory whose steps are exact takes one for each look-up and each record, and where it is asked for counts as many as for the look-up
// that gives them. A list takes one more for each row that it goes over.
#[test]
fn calls_of_memories(rt: HostRuntime) -> Result<(), Fail> {
    assert_eq!(rt; steps_of::<KeyedMemory>(&rt, rt.alloc())?, 9);
    let steps = steps_of::<ListMemory>(&rt, rt.alloc())?;
    assert!(rt; steps >= 14, "{steps}");
    Ok(())
}
