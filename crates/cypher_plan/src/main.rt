//! Prints the plans of views' queries: each line of standard input has a query, and is answered with its weight and its plan, or with why
//! it has none.
#![tactic(auto)]

mod explaining;
mod expression_texts;
mod plan_texts;

use crate::explaining::{Explained, explain};
use crate::plan_texts::PlanText;
use std::fmt::Display;
use std::io::{self, BufRead, BufReader};

fn main(rt: HostRuntime) -> io::Result<()> {
    let input = BufReader::new(rt.alloc(), rt.reader())?;
    for line in input.split(rt.alloc(), b'\n') {
        let bytes = line?;
        print_answer(&rt, bytes.as_slice())?;
    }
    Ok(())
}

// Prints the answer to a line, and an empty line after it. A line without tokens has no answer.
fn print_answer<R: Print + AllocGlobal>(rt: &R, line: &[u8]) -> io::Result<()> {
    match explain(rt.alloc(), line) {
        Ok(Explained::Nothing) => Ok(()),
        Ok(Explained::Query { weight, plan }) => {
            println!(rt; "weight {weight}")?;
            match plan {
                Ok(plan) => println!(rt; "{}", PlanText(&plan)),
                Err(fault) => print_fault(rt, fault.code(), &fault),
            }
        }
        Err(fault) => print_fault(rt, fault.code(), &fault),
    }
}

fn print_fault<R: Print, F: Display>(rt: &R, code: u16, fault: &F) -> io::Result<()> {
    println!(rt; "fault {code}: {fault}\n")
}
