//! Runs that write their answers into a slice, which takes no memory. The expected answers are those of the lines of
//! [`super::worked_examples`].

ghost use Rattle.std.specs.Prelude.{◌≡◌, ◌++◌, map, length};
ghost use Rattle.enumset_machine.specs.Plans.{replies_by};
ghost use Rattle.enumset_machine.specs.Replies.{reply_of};
ghost use Rattle.enumset_machine.specs.Runs.{outcome};
ghost use Rattle.enumset_sets.specs.Elements.{valid_bits};

use enumset_commands::Command::{self, *};
use enumset_commands::{MixedCommand, Refusal, Reply};
use enumset_machine::laws::{run_in_parts, same_mixed_replies, same_replies};
use enumset_machine::{Answer, Machine, MixedMachine, run_into, run_mixed_into};
use enumset_sets::{EnumSet, EnumSetType};
use enumset_worked::{Letters, Marks, PairNumber, PairWords, Wide};
use std::cmp::Ordering;
use std::process::Abort;
use std::test::Fail;

/// Tests that a reply is of these words.
fn expect_words(rt: &impl Abort, reply: &Reply, wanted: &[u64]) {
    match reply {
        Reply::Words(words) => assert!(rt; words.as_slice() == wanted, "{words:?}"),
        other => assert!(rt; false, "{other:?}, not {wanted:?}"),
    }
}

#[test]
fn over_wide(rt: HostRuntime) -> Result<(), Fail> {
    let commands = [
        All { r: 0 },
        Iter { i: 0, r: 0 },
        Left { i: 0 },
        Next { i: 0 },
        NextBack { i: 0 },
        Words { r: 0, count: 3 },
        Number { r: 0, width: 64 },
        NumberCut { r: 0, width: 64 },
        Words { r: 0, count: 2 },
    ];
    let mut machine = Machine::<Wide>::new();
    let mut answers = [Answer::Absent; 9];
    run_into(&mut machine, &commands, &mut answers);
    assert!(rt; matches!(answers[0], Answer::Done));
    assert!(rt; matches!(answers[1], Answer::Done));
    assert!(rt; matches!(answers[2], Answer::Count(3)));
    assert!(rt; matches!(answers[3], Answer::Bit(3)));
    assert!(rt; matches!(answers[4], Answer::Bit(130)));
    expect_words(&rt, &answers[5].to_reply(rt.alloc())?, &[8, 1, 4]);
    assert!(rt; matches!(answers[6], Answer::Absent));
    assert!(rt; matches!(answers[7], Answer::Number(8)));
    assert!(rt; matches!(answers[8], Answer::Absent));
    Ok(())
}

#[test]
fn over_mixed_marks(rt: HostRuntime) {
    let commands = [
        MixedCommand::Common(FromNumber {
            r: 0,
            width: 8,
            value: 9,
        }),
        MixedCommand::ValidLen { r: 0 },
        MixedCommand::Unknown { r: 0 },
        MixedCommand::AsEnumset { to: 1, a: 0 },
        MixedCommand::FullComplement { to: 1, a: 0 },
        MixedCommand::Common(Number { r: 1, width: 8 }),
        MixedCommand::Common(Iter { i: 0, r: 0 }),
        MixedCommand::Common(Next { i: 0 }),
        MixedCommand::Common(Next { i: 0 }),
        MixedCommand::InsertBit { r: 0, bit: 8 },
    ];
    let mut machine = MixedMachine::<Marks>::new();
    let mut answers = [Answer::Absent; 10];
    run_mixed_into(&mut machine, &commands, &mut answers);
    assert!(rt; matches!(answers[0], Answer::Done));
    assert!(rt; matches!(answers[1], Answer::Count(1)));
    assert!(rt; matches!(answers[2], Answer::Truth(true)));
    assert!(rt; matches!(answers[3], Answer::Absent));
    assert!(rt; matches!(answers[4], Answer::Done));
    assert!(rt; matches!(answers[5], Answer::Number(246)));
    assert!(rt; matches!(answers[6], Answer::Done));
    assert!(rt; matches!(answers[7], Answer::Bit(0)));
    assert!(rt; matches!(answers[8], Answer::Unknown(3)));
    assert!(rt; matches!(answers[9], Answer::Refused(Refusal::NotABit)));
}

// One command at a time, without a list of answers.
#[test]
fn one_answer(rt: HostRuntime) {
    let answer = Machine::<Wide>::new().answer(&Only { r: 3, bit: 130 });
    assert!(rt; matches!(answer, Answer::Done));
    let answer = MixedMachine::<Marks>::new().answer(&MixedCommand::InsertBit { r: 3, bit: 7 });
    assert!(rt; matches!(answer, Answer::Truth(true)));
}

/// Runs commands in two halves, and answers as one run of all of them does.
fn run_halves<T: EnumSetType>(
    machine: &mut Machine<T>,
    first: &[Command],
    second: &[Command],
    of_first: &mut [Answer<EnumSet<T>>],
    of_second: &mut [Answer<EnumSet<T>>],
)
    requires room { length first.now ≡ length of_first.old }
    requires more_room { length second.now ≡ length of_second.old }
    ensures { map reply_of of_first.new ++ map reply_of of_second.new
        ≡ replies_by (outcome (valid_bits T.elements)) machine.old (first.now ++ second.now) }
{
    run_in_parts::<Command>();
    run_into(machine, first, of_first);
    run_into(machine, second, of_second);
}

/// Tests the answers to the commands over letters.
fn expect_letters(rt: &impl Abort, answers: &[Answer<EnumSet<Letters>>; 6]) {
    assert!(rt; matches!(answers[0], Answer::Truth(true)));
    assert!(rt; matches!(answers[1], Answer::Done));
    assert!(rt; matches!(answers[2], Answer::Truth(true)));
    assert!(rt; matches!(answers[3], Answer::Count(1)));
    assert!(rt; matches!(answers[4], Answer::Bit(1)));
    assert!(rt; matches!(answers[5], Answer::Absent));
}

// The second half goes on from the state that the first one leaves.
#[test]
fn in_halves(rt: HostRuntime) {
    let commands = [
        Insert { r: 3, bit: 1 },
        Iter { i: 0, r: 3 },
        Insert { r: 3, bit: 2 },
        Left { i: 0 },
        Next { i: 0 },
        Next { i: 0 },
    ];
    let mut answers = [Answer::Done; 6];
    run_into(&mut Machine::<Letters>::new(), &commands, &mut answers);
    expect_letters(&rt, &answers);
    let mut answers = [Answer::Done; 6];
    let (first, second) = commands.split_at(3);
    let (of_first, of_second) = answers.split_at_mut(3);
    run_halves(
        &mut Machine::<Letters>::new(),
        first,
        second,
        of_first,
        of_second,
    );
    expect_letters(&rt, &answers);
}

/// Tests the answers to the commands over pairs.
fn expect_pairs<S: Copy>(rt: &impl Abort, answers: &[Answer<S>; 5]) {
    assert!(rt; matches!(answers[0], Answer::Done));
    assert!(rt; matches!(answers[1], Answer::Done));
    assert!(rt; matches!(answers[2], Answer::Bit(64)));
    assert!(rt; matches!(answers[3], Answer::Count(1)));
    assert!(rt; matches!(answers[4], Answer::Words { count: 2, .. }));
}

// Two types with the same bits have the same replies, in two words and in an integer.
#[test]
#[tactic(auto, unfolding(enumset_sets::specs::Elements::valid_bits))]
fn over_pairs(rt: HostRuntime) -> Result<(), Fail> {
    let commands = [
        All { r: 0 },
        Iter { i: 0, r: 0 },
        NextBack { i: 0 },
        Left { i: 0 },
        Words { r: 0, count: 2 },
    ];
    let mut in_words = [Answer::Done; 5];
    let mut in_number = [Answer::Done; 5];
    same_replies(
        &mut Machine::<PairWords>::new(),
        &mut Machine::<PairNumber>::new(),
        &commands,
        &mut in_words,
        &mut in_number,
    );
    expect_pairs(&rt, &in_words);
    expect_pairs(&rt, &in_number);
    expect_words(&rt, &in_words[4].to_reply(rt.alloc())?, &[1, 1]);
    expect_words(&rt, &in_number[4].to_reply(rt.alloc())?, &[1, 1]);
    Ok(())
}

/// Tests the answers to the commands over mixed pairs.
fn expect_mixed_pairs<S: Copy>(rt: &impl Abort, answers: &[Answer<S>; 7]) {
    assert!(rt; matches!(answers[0], Answer::Truth(true)));
    assert!(rt; matches!(answers[1], Answer::Truth(true)));
    assert!(rt; matches!(answers[2], Answer::Order(Ordering::Less)));
    assert!(rt; matches!(answers[3], Answer::Truth(true)));
    assert!(rt; matches!(answers[4], Answer::Truth(false)));
    assert!(rt; matches!(answers[5], Answer::Done));
    assert!(rt; matches!(answers[6], Answer::Count(127)));
}

// Both representations have a width of 128.
#[test]
#[tactic(auto, unfolding(enumset_sets::specs::Elements::valid_bits))]
fn over_mixed_pairs(rt: HostRuntime) {
    let commands = [
        MixedCommand::InsertBit { r: 0, bit: 63 },
        MixedCommand::InsertBit { r: 1, bit: 64 },
        MixedCommand::Common(Compare { a: 0, b: 1 }),
        MixedCommand::Unknown { r: 0 },
        MixedCommand::Unknown { r: 1 },
        MixedCommand::FullComplement { to: 2, a: 0 },
        MixedCommand::Common(Len { r: 2 }),
    ];
    let mut in_words = [Answer::Done; 7];
    let mut in_number = [Answer::Done; 7];
    same_mixed_replies(
        &mut MixedMachine::<PairWords>::new(),
        &mut MixedMachine::<PairNumber>::new(),
        &commands,
        &mut in_words,
        &mut in_number,
    );
    expect_mixed_pairs(&rt, &in_words);
    expect_mixed_pairs(&rt, &in_number);
}
