//! Runs where memory may be refused, and faults that are reported all the same.
//!
//! If its call is refused, a test checks that nothing changed and that the same call with memory returns the whole
//! answer, and then ends with the refusal. `scripts/gate/refused-memory` refuses each allocation in turn, and knows how
//! each test must end.

use enumset_commands::{Command, MixedCommand, Reply, TextFault};
use enumset_machine::worked::Worked;
use enumset_machine::worked_types::serve_worked;
use enumset_machine::{Machine, MixedMachine, run, run_mixed};
use enumset_worked::{Letters, Marks};
use std::alloc::Global;
use std::fmt::Debug;
use std::process::Abort;
use std::test::Fail;

/// Whether the last of these replies is these words.
fn ends_in_words(replies: &[Reply], wanted: &[u64]) -> bool {
    match replies.last() {
        Some(Reply::Words(words)) => words.as_slice() == wanted,
        _ => false,
    }
}

/// What a call returns once there is memory, and the error that it returned first.
fn returned<V, E: Debug, F: FnMut() -> Result<V, E>>(
    rt: &impl Abort,
    mut call: F,
) -> (V, Result<(), E>)
    requires { F.IsAlwaysCallable call }
{
    match call() {
        Ok(value) => (value, Ok(())),
        Err(refused) => (call().expect(rt, "refused once more"), Err(refused)),
    }
}

#[test]
fn a_step_leaves_its_machine(rt: HostRuntime) -> Result<(), Fail> {
    let mut machine = Machine::<Letters>::new();
    machine.step(rt.alloc(), &Command::Insert { r: 0, bit: 2 })?;
    let words = Command::Words { r: 0, count: 2 };
    let (reply, ended) = returned(&rt, || machine.step(rt.alloc(), &words));
    assert!(rt; ends_in_words(&[reply], &[4, 0]));
    ended?;
    let mut machine = MixedMachine::<Marks>::new();
    machine.step(rt.alloc(), &MixedCommand::InsertBit { r: 0, bit: 7 })?;
    let words = MixedCommand::Common(words);
    let (reply, ended) = returned(&rt, || machine.step(rt.alloc(), &words));
    assert!(rt; ends_in_words(&[reply], &[128, 0]));
    Ok(ended?)
}

#[test]
fn runs(rt: HostRuntime) -> Result<(), Fail> {
    let words = || Command::WordsCut { r: 0, count: 1 };
    let commands = [Command::Insert { r: 0, bit: 2 }, words()];
    let (replies, ended) = returned(&rt, || run::<Letters>(rt.alloc(), &commands));
    assert!(rt; replies.len() == 2 && ends_in_words(&replies, &[4]));
    ended?;
    let commands = [
        MixedCommand::InsertBit { r: 0, bit: 7 },
        MixedCommand::Common(words()),
    ];
    let (replies, ended) = returned(&rt, || run_mixed::<Marks>(rt.alloc(), &commands));
    assert!(rt; replies.len() == 2 && ends_in_words(&replies, &[128]));
    Ok(ended?)
}

/// Serves two lines over a type.
fn expect_replies(rt: &impl Abort, alloc: Global, worked: Worked) -> Result<(), Fail> {
    let input = b"from_words 0 5\nwords 0 2\n".as_slice();
    let (text, ended) = returned(rt, || serve_worked(alloc, worked, input));
    assert!(rt; text.as_slice() == b"ok\nwords 5 0\n".as_slice());
    Ok(ended?)
}

#[test]
fn texts(rt: HostRuntime) -> Result<(), Fail> {
    expect_replies(&rt, rt.alloc(), Worked::Letters)
}

#[test]
fn mixed_texts(rt: HostRuntime) -> Result<(), Fail> {
    expect_replies(&rt, rt.alloc(), Worked::MixedMarks)
}

// The fault of the input is reported, and not the refusal. The long input takes the first allocation.
#[test]
fn faults_of_the_input(rt: HostRuntime) -> Result<(), Fail> {
    let too_long = vec![in rt.alloc(); b'\n'; 1_048_577]?;
    let lines = b"from_words 0 5\nwords 0 2\nlen\n".as_slice();
    for worked in [Worked::Letters, Worked::MixedMarks] {
        for (input, wanted) in [
            (lines, TextFault::BadLine(3)),
            (too_long.as_slice(), TextFault::TooLong),
        ] {
            assert!(rt; serve_worked(rt.alloc(), worked, input).err() == Some(wanted));
        }
    }
    Ok(())
}
