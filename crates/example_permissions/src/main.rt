//! Says which requests of users a policy allows.
//!
//! `example_permissions POLICY` reads a policy from a file, and requests from standard input, one a line. The exit
//! status is 0 if all requests are allowed, 1 if one is denied, and 2 on a fault.
#![tactic(auto, using(enumset::specs::Sets::set_laws))]

ghost use Rattle.std.specs.Prelude.{◌≡◌, ◌≢◌, IfOk};
ghost use Rattle.std.specs.Process.{exit_status};

mod decision;
mod fault;
mod policy;
mod reader;
mod rights;
mod roles;

use decision::Decision;
use fault::Fault;
use reader::Policy;
use std::process::ExitCode;
use std::rt::{Env, Files};
use std::{env, fmt, fs, io};

/// Reads the policy, and answers the requests.
fn answer_all<R>(rt: &R) -> io::Result<ExitCode>
where
    R: Env + Files + Input + Print + Eprint + AllocGlobal,
{
    let mut args = env::args(rt)?.skip(1);
    let (Some(path), None) = (args.next(), args.next()) else {
        return stop(rt, "usage: example_permissions POLICY < REQUESTS");
    };
    match read_policy(rt, path.as_str()) {
        Ok(policy) => answer_requests(rt, &policy),
        Err(fault) => stop(rt, format_args!("{path}: {fault}")),
    }
}

/// Answers each request in turn, up to the first line that is not a request.
fn answer_requests<R>(rt: &R, policy: &Policy) -> io::Result<ExitCode>
where
    R: Input + Print + Eprint + AllocGlobal,
{
    let mut status = 0;
    for (line, number) in rt.lines(rt.alloc()).zip(1..=u64::MAX) {
        let decision = match policy.answer(rt.alloc(), line?.as_str()) {
            Ok(Some(decision)) => decision,
            Ok(None) => continue,
            Err(fault) => return stop(rt, format_args!("line {number}: {fault}")),
        };
        println!(rt; "{decision}")?;
        status = status_after(status, &decision);
    }
    Ok(ExitCode::from(status))
}

/// The exit status after one more decision: 1 if it is a denial, else what the status was.
fn status_after(status: u8, decision: &Decision) -> u8
    ensures allowed { decision.now ≡ Decision.Allowed → result ≡ status }
    ensures denied { decision.now ≢ Decision.Allowed → result ≡ 1 }
{
    match decision {
        Decision::Allowed => status,
        Decision::Denied(_) => 1,
    }
}

fn read_policy<R: Files + AllocGlobal>(rt: &R, path: &str) -> Result<Policy, Fault> {
    let text = fs::read_to_string(rt, path).map_err(Fault::Io)?;
    Policy::from_json(rt.alloc(), text.as_str())
}

/// Says why the program stops. The exit status is then 2.
fn stop(rt: &impl Eprint, why: impl fmt::Display + Drop) -> io::Result<ExitCode>
    ensures { IfOk result (λ status. exit_status status ≡ 2) }
{
    eprintln!(rt; "example_permissions: {why}")?;
    Ok(ExitCode::from(2))
}

fn main(rt: HostRuntime) -> ExitCode {
    match answer_all(&rt) {
        Ok(status) => status,
        Err(error) => {
            let _ = stop(&rt, error);
            ExitCode::from(2)
        }
    }
}
