//! The ordered queue and the board at work, and the same work on the standard library's heap alone, to be timed from
//! outside: `test_bench_order PART SHAPE COUNT ..`. Each three words are a job. The program prints a line for each job:
//! the words, and a digest of the addresses in their order.
#![tactic(auto)]

mod digest;
mod heap_run;
mod jwalk_run;
mod scrambled;
mod tree;

use crate::digest::Digest;
use crate::heap_run::{run_heap, run_tree_heap};
use crate::jwalk_run::{run_board, run_queue};
use crate::scrambled::scrambled_addresses;
use crate::tree::Tree;
use std::alloc::Global;
use std::env;
use std::process::ExitCode;

/// The part `input` only makes the addresses.
fn run_scrambled(alloc: Global, part: &str, count: usize) -> Option<Digest> {
    let addresses = scrambled_addresses(alloc, count)?;
    match part {
        "input" => Some(Digest::new()),
        "heap" => run_heap(alloc, addresses),
        "jwalk" => run_queue(alloc, addresses),
        _ => None,
    }
}

/// The part `input` only has the tree made.
fn run_tree(alloc: Global, part: &str, tree: &Tree) -> Option<Digest> {
    match part {
        "input" => Some(Digest::new()),
        "heap" => run_tree_heap(alloc, tree),
        "jwalk" => run_board(alloc, tree),
        _ => None,
    }
}

/// Returns `None` for other words.
fn run_job(alloc: Global, words: &[String]) -> Option<Digest> {
    let [part, shape, count] = words else {
        return None;
    };
    let count = count.parse::<u32>().ok()? as usize;
    if shape.as_str() == "scrambled" {
        return run_scrambled(alloc, part.as_str(), count);
    }
    let tree = Tree::new(alloc, shape.as_str(), count)?;
    run_tree(alloc, part.as_str(), &tree)
}

/// Returns `None` at the first job that can't be done.
fn run(rt: &HostRuntime) -> Option<()> {
    let args = env::args(rt).ok()?;
    let words: Vec<String> = args.skip(1).collect(rt.alloc()).ok()?;
    for job in words.chunks(3) {
        let digest = run_job(rt.alloc(), job)?;
        for word in job {
            print!(rt; "{word} ").ok()?;
        }
        println!(rt; "{}", digest.value).ok()?;
    }
    Some(())
}

fn main(rt: HostRuntime) -> ExitCode {
    if run(&rt).is_some() {
        return ExitCode::SUCCESS;
    }
    let _ = eprintln!(rt; "test_bench_order: a job can't be done");
    ExitCode::FAILURE
}
