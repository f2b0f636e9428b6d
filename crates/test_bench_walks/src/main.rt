//! Walks over trees in memory, to be timed from outside: `test_bench_walks CALLS SHAPE COUNT ..`. Each three words are a
//! job. The program prints a line for each job: the words, and how many entries came.
#![tactic(auto)]

mod calls;
mod tree;

use crate::calls::count_entries;
use crate::tree::build;
use std::alloc::Global;
use std::env;
use std::process::ExitCode;

/// Returns `None` for other words, and if memory runs out.
fn run_job(alloc: Global, words: &[String]) -> Option<usize> {
    let [calls, shape, count] = words else {
        return None;
    };
    let tree = build(alloc, shape.as_str(), count.parse::<u32>().ok()?)?;
    count_entries(alloc, calls.as_str(), tree)
}

/// Returns `None` at the first job that can't be done.
fn run(rt: &HostRuntime) -> Option<()> {
    let args = env::args(rt).ok()?;
    let words: Vec<String> = args.skip(1).collect(rt.alloc()).ok()?;
    for job in words.chunks(3) {
        let count = run_job(rt.alloc(), job)?;
        for word in job {
            print!(rt; "{word} ").ok()?;
        }
        println!(rt; "{count}").ok()?;
    }
    Some(())
}

fn main(rt: HostRuntime) -> ExitCode {
    if run(&rt).is_some() {
        return ExitCode::SUCCESS;
    }
    let _ = eprintln!(rt; "test_bench_walks: a job can't be done");
    ExitCode::FAILURE
}
