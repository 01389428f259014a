//! Long lists. A call that takes memory may always report that there is none, so no clause rejects a body that gives up
//! past some length.

use enumset_commands::{Command, MixedCommand, Reply};
use enumset_machine::{run, run_mixed};
use enumset_worked::{Letters, Marks};
use std::process::Abort;
use std::test::Fail;

/// More commands than an input has bytes.
const COMMANDS: usize = (1 << 20) + 1;

/// Checks that each command has a reply, and that each reply is 0.
fn all_are_empty(rt: &impl Abort, replies: &[Reply]) {
    assert_eq!(rt; replies.len(), COMMANDS);
    for reply in replies {
        assert!(rt; matches!(reply, Reply::Count(0)));
    }
}

#[test]
fn many_commands_are_run(rt: HostRuntime) -> Result<(), Fail> {
    let (mut commands, mut mixed) = (Vec::new(rt.alloc()), Vec::new(rt.alloc()));
    for _ in 0..COMMANDS {
        commands.push(Command::Len { r: 0 })?;
        mixed.push(MixedCommand::Common(Command::Len { r: 0 }))?;
    }
    all_are_empty(&rt, &run::<Letters>(rt.alloc(), &commands)?);
    all_are_empty(&rt, &run_mixed::<Marks>(rt.alloc(), &mixed)?);
    Ok(())
}
