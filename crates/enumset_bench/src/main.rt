//! Runs one of the jobs that users of sets wait for: `enumset_bench JOB SEED ROUNDS`.
//!
//! A job makes its input from the seed, and works on another part of it in each round. The program prints a digest of
//! all results. `bench/run` times it.
#![tactic(auto, using(enumset::specs::Sets::set_laws))]

mod commands;
mod decide;
mod decode;
mod digest;
mod far;
mod flow;
mod flow_by_answers;
mod flow_in_place;
mod json;
mod random;
mod rights;
mod settings;
mod symbols;

use std::alloc::{AllocError, Global};
use std::process::ExitCode;
use std::rt::Env;
use std::{env, io};

/// The digest of a job's results, or `None` if there is no such job.
fn digest_of(alloc: Global, job: &str, seed: u32, rounds: u32) -> Option<Result<u64, AllocError>> {
    Some(match job {
        "json" => json::digest(alloc, seed, rounds),
        "decide" => decide::digest(alloc, seed, rounds),
        "flow" => flow::digest(alloc, seed, rounds),
        "flow_in_place" => flow_in_place::digest(alloc, seed, rounds),
        "flow_by_answers" => flow_by_answers::digest(alloc, seed, rounds),
        "decode" => decode::digest(alloc, seed, rounds),
        "commands" => commands::digest(alloc, seed, rounds),
        _ => return None,
    })
}

/// Runs the job that the arguments name, and prints its digest.
fn run<R: Env + Print + Eprint + AllocGlobal>(rt: &R) -> io::Result<ExitCode> {
    let words: Vec<String> = env::args(rt)?.skip(1).collect(rt.alloc())?;
    if let [job, seed, rounds] = words.as_slice() {
        let seed = seed.as_str().parse::<u32>();
        let rounds = rounds.as_str().parse::<u32>();
        if let (Ok(seed), Ok(rounds)) = (seed, rounds) {
            if let Some(digest) = digest_of(rt.alloc(), job.as_str(), seed, rounds) {
                println!(rt; "{:016x}", digest?)?;
                return Ok(ExitCode::SUCCESS);
            }
        }
    }
    eprintln!(rt;
        "usage: enumset_bench json|decide|flow|flow_in_place|flow_by_answers|decode|commands SEED ROUNDS"
    )?;
    Ok(ExitCode::from(2))
}

fn main(rt: HostRuntime) -> ExitCode {
    match run(&rt) {
        Ok(status) => status,
        Err(error) => {
            let _ = eprintln!(rt; "{error}");
            ExitCode::FAILURE
        }
    }
}
