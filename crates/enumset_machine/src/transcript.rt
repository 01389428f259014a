//! The text of answers.
ghost use Rattle.std.specs.Prelude.{◌≡◌, ◌++◌, codes, OnOk};
ghost use Rattle.std.specs.String.{string_bytes};
ghost use Rattle.enumset_repr.specs.Words.{words};
ghost use Rattle.enumset_commands.specs.Texts.{text_of};
ghost use Rattle.enumset_commands.specs.declared.reply.Reply.TheVariants.{Words};
ghost use Rattle.enumset_machine.specs.Replies.{reply_by};

use crate::answer::Answer;
use crate::machine::MOST_WORDS;
use crate::run_set::RunSet;
use enumset_commands::{write_reply, write_words};
use std::alloc::AllocError;

/// Writes the text of an answer's reply and a line feed. The only error is out of memory, for the text.
pub(crate) fn write_answer<S: RunSet>(out: &mut String, answer: Answer<S>) -> Result<(), AllocError>
    ensures { OnOk result (string_bytes out.new
        ≡ string_bytes out.old ++ text_of (reply_by S.members answer) ++ codes "\n") }
{
    match answer.reply_or_words() {
        Ok(reply) => write_reply(out, &reply),
        Err((set, count)) => write_words_of(out, set, count),
    }
}

/// Writes the text of a reply of the first `count` words of a set, and a line feed.
///
/// It is not inlined, since answers without words would then clear room for words.
#[inline(never)]
fn write_words_of<S: RunSet>(out: &mut String, set: S, count: u8) -> Result<(), AllocError>
    ensures { OnOk result (string_bytes out.new
        ≡ string_bytes out.old ++ text_of (Words (words (S.members set) count)) ++ codes "\n") }
{
    let mut room = [0u64; MOST_WORDS];
    let words = &mut room[..usize::from(count)];
    set.words_cut(words);
    write_words(out, words)
}
