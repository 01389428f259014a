//! The commands that turn sets into numbers and words, and numbers and words into sets.

ghost use Rattle.std.specs.Prelude.{◌≡◌, ◌<◌, ◌*◌, ◌^◌, true};
ghost use Rattle.enumset_repr.specs.Number.{number};
ghost use Rattle.enumset_repr.specs.Words.{words};
ghost use Rattle.enumset_commands.specs.declared.command.Command.TheVariants as on;
ghost use Rattle.enumset_commands.specs.declared.reply.Reply.TheVariants.{Number, Words};
ghost use Rattle.enumset_machine.specs.States.{is_set_register};
ghost use Rattle.enumset_machine.specs.Plans.{is_width, reply_if_below};
ghost use Rattle.enumset_machine.specs.Replies.{reply_by};
ghost use Rattle.enumset_machine.specs.Runs.{plan};

use super::MachineOver;
use crate::answer::Answer;
use crate::run_set::RunSet;
use enumset_commands::WordList;

/// The most words that an answer may have.
pub(crate) const MOST_WORDS: usize = u8::MAX as usize;

#[tactic(auto, unfolding(crate::specs::Runs::plan))]
impl<S: RunSet> MachineOver<S> {
    /// Puts the bits of a number into a register, if a set may have each of them.
    pub(crate) fn put_number(&mut self, r: u8, width: u32, value: u128) -> Answer<S>
        requires register { is_set_register r ≡ true }
        requires width { is_width width ≡ true }
        requires fits { value < 2 ^ width }
        ensures reply { reply_by S.members result
            ≡ ((plan (on.FromNumber r width value)).effect S.rules self.old).0 }
        ensures state { self.new ≡ ((plan (on.FromNumber r width value)).effect S.rules self.old).1 }
    {
        match S::from_number(width, value) {
            Some(set) => self.put(r, set),
            None => Answer::Absent,
        }
    }

    /// Puts the bits of words into a register, if a set may have each of them.
    pub(crate) fn put_words(&mut self, r: u8, words: &WordList) -> Answer<S>
        requires { is_set_register r ≡ true }
        ensures reply { reply_by S.members result
            ≡ ((plan (on.FromWords r words.now)).effect S.rules self.old).0 }
        ensures state { self.new ≡ ((plan (on.FromWords r words.now)).effect S.rules self.old).1 }
    {
        match S::from_words(words.as_slice()) {
            Some(set) => self.put(r, set),
            None => Answer::Absent,
        }
    }
}

/// The answer with the number of a set, if each member is below a width.
pub(crate) fn number_answer<S: RunSet>(set: S, width: u32) -> Answer<S>
    requires { is_width width ≡ true }
    ensures { reply_by S.members result
        ≡ reply_if_below (S.members set) width (Number (number (S.members set))) }
{
    match set.number(width) {
        Some(number) => Answer::Number(number),
        None => Answer::Absent,
    }
}

/// The answer with the first `count` words of a set, if each member is in one of them.
///
/// It is not inlined, since other commands would then clear room for words.
#[inline(never)]
pub(crate) fn words_answer<S: RunSet>(set: S, count: u8) -> Answer<S>
    ensures { reply_by S.members result
        ≡ reply_if_below (S.members set) (64 * count) (Words (words (S.members set) count)) }
{
    let mut room = [0u64; MOST_WORDS];
    match set.words(&mut room[..usize::from(count)]) {
        Some(()) => Answer::Words { set, count },
        None => Answer::Absent,
    }
}
