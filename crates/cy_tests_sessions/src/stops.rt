//! A session of which each read, write and flush fails in turn, or is interrupted.

use crate::streams::{Calls, GOOD, expect_run};
use cy_shell::RunFault;
use std::alloc::{AllocError, Global};
use std::test::Fail;

// Two views with a feed, and what is written for each line. A line of invalid UTF-8 has no entries, though the line before
// it had.
const SESSION: [(&[u8], &[u8]); 7] = [
    (
        b"CREATE (:A {k: 7})\n",
        b"{\"changed\":[1,0,0,0],\"columns\":[],\"rows\":[]}\n",
    ),
    (
        b":view v MATCH (n:A) RETURN n.k\n",
        b"{\"columns\":[\"n.k\"],\"tick\":2,\"view\":\"v\"}\n",
    ),
    (
        b":view w MATCH (n:A) RETURN n.j\n",
        b"{\"columns\":[\"n.j\"],\"tick\":3,\"view\":\"w\"}\n",
    ),
    (
        b"MATCH (n:A) SET n.k = 8\n",
        b"{\"changed\":[0,0,0,0],\"columns\":[],\"rows\":[]}\n\
        {\"added\":[[[8],1]],\"removed\":[[[7],1]],\"tick\":4,\"view\":\"v\"}\n",
    ),
    (
        b"ab\xC3(\n",
        b"{\"at\":2,\"code\":18,\"error\":\"NotUtf8\"}\n",
    ),
    (
        b"MATCH (n:A) SET n.k = 8\n",
        b"{\"changed\":[0,0,0,0],\"columns\":[],\"rows\":[]}\n",
    ),
    (
        b"MATCH (n:A) DETACH DELETE n\n",
        b"{\"changed\":[0,1,0,0],\"columns\":[],\"rows\":[]}\n\
        {\"added\":[],\"removed\":[[[8],1]],\"tick\":5,\"view\":\"v\"}\n\
        {\"added\":[],\"removed\":[[[null],1]],\"tick\":5,\"view\":\"w\"}\n",
    ),
];

// The input of the session, and what is written once so many bytes of it were read: the answers to the lines that have ended.
fn session(alloc: Global, bytes: usize) -> Result<(Vec<u8>, Vec<u8>), AllocError> {
    let mut input = Vec::new(alloc);
    let mut output = Vec::new(alloc);
    for (line, answer) in SESSION {
        input.extend_from_slice(line)?;
        if input.len() <= bytes {
            output.extend_from_slice(answer)?;
        }
    }
    Ok((input, output))
}

// The read of each byte fails in turn, and the one at the end. It isn't made again.
#[test]
fn stops_at_a_read_that_fails(rt: HostRuntime) -> Result<(), Fail> {
    let alloc = rt.alloc();
    let (input, _) = session(alloc, 0)?;
    for reads in 0..=input.len() {
        let (input, output) = session(alloc, reads)?;
        let calls = (Calls::failing_after(reads), GOOD);
        let (input, output) = (input.as_slice(), output.as_slice());
        expect_run(&rt, alloc, input, calls, Err(RunFault::Read), output);
    }
    Ok(())
}

// The write of each byte, and the flush after each object, fails in turn: what was taken before is written, and it isn't made again.
#[test]
fn stops_at_a_write_that_fails(rt: HostRuntime) -> Result<(), Fail> {
    let alloc = rt.alloc();
    let (input, output) = session(alloc, usize::MAX)?;
    let input = input.as_slice();
    let mut written = Vec::new(alloc);
    let mut writes = 0usize;
    for byte in &output {
        let flushes = usize::from(written.last() == Some(&b'\n'));
        for _ in 0..=flushes {
            let calls = (GOOD, Calls::failing_after(writes));
            let fault = Err(RunFault::Write);
            expect_run(&rt, alloc, input, calls, fault, written.as_slice());
            writes = writes.saturating_add(1);
        }
        written.push(*byte)?;
    }
    let calls = (GOOD, Calls::failing_after(writes));
    let fault = Err(RunFault::Write);
    expect_run(&rt, alloc, input, calls, fault, written.as_slice());
    Ok(())
}

// Each read, write and flush is interrupted so many times: up to 999 times it is made again, and after 1,000 it has failed.
#[test]
fn asks_again_after_an_interruption(rt: HostRuntime) -> Result<(), Fail> {
    let alloc = rt.alloc();
    let (input, output) = session(alloc, usize::MAX)?;
    let input = input.as_slice();
    for times in [0, 1, 999] {
        let calls = (Calls::interrupted(times), Calls::interrupted(times));
        expect_run(&rt, alloc, input, calls, Ok(()), output.as_slice());
    }
    let calls = (Calls::interrupted(1_000), GOOD);
    expect_run(&rt, alloc, input, calls, Err(RunFault::Read), &[]);
    let calls = (GOOD, Calls::interrupted(1_000));
    expect_run(&rt, alloc, input, calls, Err(RunFault::Write), &[]);
    Ok(())
}
