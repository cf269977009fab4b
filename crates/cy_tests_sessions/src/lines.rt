//! Sessions that no transcript holds: invalid UTF-8, control characters, lines and rows at their limits, and steps.

use crate::streams::{GOOD, answer, expect_run};
use cy_shell::{MemorySink, MemorySource, Settings};
use std::alloc::{AllocError, Global};
use std::process::Abort;
use std::str;
use std::test::Fail;

const ROOM: usize = 262_144;

/// What is written for an input, with ample memory and without a feed.
pub(crate) fn written(
    rt: &impl Abort,
    alloc: Global,
    input: &[u8],
) -> Result<MemorySink, AllocError> {
    let mut source = MemorySource::new(input);
    let mut sink = MemorySink::new(alloc, ROOM)?;
    let settings = Settings {
        history: 64,
        feed: false,
    };
    let outcome = answer(alloc, &mut source, &mut sink, settings);
    assert!(rt; outcome.is_ok());
    Ok(sink)
}

// This is written for an input, whether it comes in one piece or a byte at a time.
fn expect_written(rt: &impl Abort, alloc: Global, input: &[u8], output: &str) -> Result<(), Fail> {
    let sink = written(rt, alloc, input)?;
    assert!(rt; sink.as_slice() == output.as_bytes(), "{output}");
    expect_run(rt, alloc, input, (GOOD, GOOD), Ok(()), output.as_bytes());
    Ok(())
}

// Inputs, and what is written for each.
const INPUTS: [(&[u8], &str); 3] = [
    // a line of one CR, comments and gaps
    (b"\r\n// a\n/* b */ \n\n", ""),
    // control characters, which are printed by their escapes
    (
        b"CREATE (:A {k: '\"\x01\t'})\nMATCH (n:A) RETURN n.k\n",
        r#"{"changed":[1,0,0,0],"columns":[],"rows":[]}
{"changed":[0,0,0,0],"columns":["n.k"],"rows":[["\"\u0001\t"]]}
"#,
    ),
    // a line that would be executed if it were UTF-8, and one without LF
    (
        b"CREATE (:A {k: '\xFF'})\nCREATE (:A)",
        r#"{"at":16,"code":18,"error":"NotUtf8"}
{"changed":[1,0,0,0],"columns":[],"rows":[]}
"#,
    ),
];

#[test]
fn answers_inputs(rt: HostRuntime) -> Result<(), Fail> {
    for (input, output) in INPUTS {
        expect_written(&rt, rt.alloc(), input, output)?;
    }
    Ok(())
}

// A text, another so many times after it, and a third one.
type Pieces = (&'static str, &'static str, usize, &'static str);

fn text_of(alloc: Global, pieces: Pieces) -> Result<String, AllocError> {
    let (before, again, times, after) = pieces;
    let mut text = String::from_str(alloc, before)?;
    for _ in 0..times {
        text.push_str(again)?;
    }
    text.push_str(after)?;
    Ok(text)
}

const MADE: &str = r#"{"changed":[1,0,0,0],"columns":[],"rows":[]}
"#;

const MADE_TWICE: &str = r#"{"changed":[1,0,0,0],"columns":[],"rows":[]}
{"changed":[1,0,0,0],"columns":[],"rows":[]}
"#;

const REFUSED: &str = r#"{"at":65536,"code":17,"error":"LineTooLong"}
"#;

const REFUSED_AND_MADE: &str = r#"{"at":65536,"code":17,"error":"LineTooLong"}
{"changed":[1,0,0,0],"columns":[],"rows":[]}
"#;

// A line may have 65,536 bytes and not one more, with LF and without; the next line is answered. A line of blanks has no reply.
const LONG: [(Pieces, &str); 7] = [
    (
        ("CREATE (:A {k: '", "a", 65_517, "'})\nCREATE (:A)\n"),
        MADE_TWICE,
    ),
    (
        ("CREATE (:A {k: '", "a", 65_518, "'})\nCREATE (:A)\n"),
        REFUSED_AND_MADE,
    ),
    (("", " ", 65_536, ""), ""),
    (("", " ", 65_536, "\n"), ""),
    (("", " ", 65_536, "\nCREATE (:A)"), MADE),
    (("", " ", 65_537, ""), REFUSED),
    (("", " ", 65_537, "\nCREATE (:A)"), REFUSED_AND_MADE),
];

#[test]
fn answers_long_lines(rt: HostRuntime) -> Result<(), Fail> {
    for (pieces, output) in LONG {
        let input = text_of(rt.alloc(), pieces)?;
        expect_written(&rt, rt.alloc(), input.as_bytes(), output)?;
    }
    Ok(())
}

// With 215 nodes the row of the view counts the eighth power of their number; with one more it would be above 2^62 - 1. The refused line
// changes nothing.
const COUNTED: Pieces = (
    ":view w MATCH (a) WITH 1 AS x MATCH (a) WITH 1 AS x MATCH (a) WITH 1 AS x MATCH (a) WITH 1 AS x MATCH (a) WITH 1 AS x MATCH (a) WITH 1 AS x MATCH (a) WITH 1 AS x MATCH (a) RETURN x\n",
    "CREATE ()\n",
    215,
    ":rows w\nCREATE ()\n:rows w\n",
);

const COUNTS: Pieces = (
    "{\"columns\":[\"x\"],\"tick\":1,\"view\":\"w\"}\n",
    MADE,
    215,
    r#"{"rows":[[[1],4565703233437890625]],"tick":216,"view":"w"}
{"at":null,"code":69,"error":"TooManyRows"}
{"rows":[[[1],4565703233437890625]],"tick":216,"view":"w"}
"#,
);

#[test]
fn counts_to_the_limit(rt: HostRuntime) -> Result<(), Fail> {
    let input = text_of(rt.alloc(), COUNTED)?;
    let output = text_of(rt.alloc(), COUNTS)?;
    let sink = written(&rt, rt.alloc(), input.as_bytes())?;
    assert!(&rt; sink.as_slice() == output.as_bytes());
    Ok(())
}

// Two nodes that are connected and many others; a line that connects one of the others, and a command.
const AMONG: &str = r#":view v MATCH (a:A) OPTIONAL MATCH (a)-[:T]->(b:B) RETURN a, b
CREATE (:A)
MATCH (a:A) CREATE (a)-[:T]->(:B)
"#;

const LAST: &str = r#"MATCH (a:A), (b:B) WHERE id(a) = 3 AND id(b) = 2 CREATE (a)-[:T]->(b)
:steps
:rows v
:steps
"#;

// The steps that a line takes in a view with so many nodes that it has nothing to do with. A command leaves the number as it was.
fn steps_among(rt: &impl Abort, alloc: Global, others: usize) -> Result<u64, Fail> {
    let input = text_of(alloc, (AMONG, "CREATE (:A)\n", others, LAST))?;
    let sink = written(rt, alloc, input.as_bytes())?;
    let output = str::from_utf8(sink.as_slice()).ok().ok_or("a text")?;
    steps_in(rt, output)
}

// The steps that answers to `:steps` have, all the same.
fn steps_in(rt: &impl Abort, output: &str) -> Result<u64, Fail> {
    let mut steps = None;
    for answer in output.lines() {
        if let Some(rest) = answer.strip_prefix("{\"steps\":[[\"v\",") {
            let (number, _) = rest.split_once(']').ok_or("a number")?;
            let taken = number.parse::<u64>().ok().ok_or("a number")?;
            assert!(rt; steps.is_none() || steps == Some(taken), "{taken}");
            steps = Some(taken);
        }
    }
    Ok(steps.ok_or("steps")?)
}

#[test]
fn takes_few_steps(rt: HostRuntime) -> Result<(), Fail> {
    for others in [1_000, 2_000] {
        let steps = steps_among(&rt, rt.alloc(), others)?;
        assert!(&rt; 0 < steps && steps < 500, "{steps}");
    }
    Ok(())
}
