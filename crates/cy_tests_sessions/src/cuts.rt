//! Lines that are cut short: each beginning of each line of a script, before the line.

use crate::lines::written;
use std::alloc::{AllocError, Global};
use std::process::Abort;
use std::str;
use std::test::Fail;

// The script. It is also a session of its own, script.session.
const LINES: [&str; 13] = [
    ":index A k",
    ":view v MATCH (a:A) OPTIONAL MATCH (a)-[:T]->(b:B) RETURN a.k, b",
    ":view d MATCH (a)-[r*1..2]->(b) RETURN DISTINCT b",
    "CREATE (:A {k: 1})-[:T]->(:B), (:A {k: [1, 'x']})",
    "MATCH (a:A) CREATE (a)-[:T]->(:B {t: 'some longer text'})",
    "MATCH (a:A {k: 1}) SET a.k = 2, a:C REMOVE a:A",
    "MATCH (n) RETURN labels(n) AS l, count(*) AS c",
    "MATCH (b:B) DELETE b",
    "MATCH (a:A) DETACH DELETE a",
    ":since v 2",
    ":rows d",
    ":views",
    ":drop v",
];

// What is answered to each line of it.
const ANSWERS: &str = r#"{"index":["A","k"]}
{"columns":["a.k","b"],"tick":1,"view":"v"}
{"columns":["b"],"tick":2,"view":"d"}
{"changed":[3,0,1,0],"columns":[],"rows":[]}
{"changed":[2,0,2,0],"columns":[],"rows":[]}
{"changed":[0,0,0,0],"columns":[],"rows":[]}
{"changed":[0,0,0,0],"columns":["l","c"],"rows":[[["A"],1],[["B"],3],[["C"],1]]}
{"at":null,"code":50,"error":"StillConnected"}
{"changed":[0,1,0,1],"columns":[],"rows":[]}
{"entries":[{"added":[[[[1,"x"],null],1],[[1,{"node":2}],1]],"removed":[],"tick":3},{"added":[[[[1,"x"],{"node":5}],1],[[1,{"node":4}],1]],"removed":[[[[1,"x"],null],1]],"tick":4},{"added":[],"removed":[[[1,{"node":2}],1],[[1,{"node":4}],1]],"tick":5},{"added":[],"removed":[[[[1,"x"],{"node":5}],1]],"tick":6}],"tick":6,"view":"v"}
{"rows":[[[{"node":2}],1],[[{"node":4}],1]],"tick":6,"view":"d"}
{"views":[{"columns":["a.k","b"],"made":1,"name":"v"},{"columns":["b"],"made":2,"name":"d"}]}
{"dropped":"v"}
"#;

// Beginnings of these lines that aren't refused. beginnings.session has what is answered to them.
const ACCEPTED: [&str; 12] = [
    ":view v MATCH (a:A) OPTIONAL MATCH (a)-[:T]->(b:B) RETURN a",
    ":view v MATCH (a:A) OPTIONAL MATCH (a)-[:T]->(b:B) RETURN a.k",
    "CREATE (:A {k: 1})",
    "CREATE (:A {k: 1})-[:T]->(:B)",
    "MATCH (a:A {k: 1}) SET a.k = 2",
    "MATCH (a:A {k: 1}) SET a.k = 2, a:C",
    "MATCH (a:A {k: 1}) SET a.k = 2, a:C ",
    "MATCH (n) RETURN labels(n)",
    "MATCH (n) RETURN labels(n) ",
    "MATCH (n) RETURN labels(n) AS l",
    "MATCH (n) RETURN labels(n) AS l, count(*)",
    "MATCH (n) RETURN labels(n) AS l, count(*) ",
];

// Adds each beginning of a line that is refused, and answers how many these are.
fn add_beginnings(input: &mut String, line: &str) -> Result<usize, AllocError> {
    let mut count = 0usize;
    for length in 1..line.len() {
        if let Some(beginning) = line.get(..length) {
            if !ACCEPTED.contains(&beginning) {
                input.push_str(beginning)?;
                input.push('\n')?;
                count = count.saturating_add(1);
            }
        }
    }
    Ok(count)
}

// Whether an answer is that of a line which is refused, and not for want of memory.
fn is_refused(answer: &str) -> bool {
    let wants_memory = answer.contains("\"code\":90,") || answer.contains("\"code\":91,");
    answer.starts_with("{\"at\":") && !wants_memory
}

// Adds each line of the script, after its beginnings, and answers how many these are.
fn add_lines(alloc: Global, input: &mut String) -> Result<Vec<usize>, AllocError> {
    let mut counts = Vec::new(alloc);
    for line in LINES {
        counts.push(add_beginnings(input, line)?)?;
        input.push_str(line)?;
        input.push('\n')?;
    }
    Ok(counts)
}

// As many faults come before each answer to a line of the script.
fn expect_faults(rt: &impl Abort, counts: &[usize], output: &str) -> Result<(), Fail> {
    let mut answers = output.lines();
    for (count, wanted) in counts.iter().zip(ANSWERS.lines()) {
        for number in 0..*count {
            let answer = answers.next().ok_or("a fault")?;
            assert!(rt; is_refused(answer), "{number}: {answer}");
        }
        let answer = answers.next().ok_or("an answer")?;
        assert!(rt; answer == wanted, "{answer}");
    }
    assert!(rt; answers.next().is_none() && counts.len() == ANSWERS.lines().count());
    Ok(())
}

// All beginnings of a line come before it. Each of them is refused, and the line is answered as if none had been sent.
#[test]
fn answers_beginnings_of_lines(rt: HostRuntime) -> Result<(), Fail> {
    let mut input = String::new(rt.alloc());
    let counts = add_lines(rt.alloc(), &mut input)?;
    let sink = written(&rt, rt.alloc(), input.as_bytes())?;
    let output = str::from_utf8(sink.as_slice()).ok().ok_or("a text")?;
    expect_faults(&rt, &counts, output)
}
