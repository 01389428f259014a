//! The answers of a run: replies that take no memory.

ghost use Rattle.std.specs.Prelude.{◌≡◌, false, IsOk, IfOk, IfErr};
ghost use Rattle.enumset_commands.specs.declared.reply.Reply.TheVariants.{Words};
ghost use Rattle.enumset_repr.specs.Words.{words};
ghost use Rattle.enumset_machine.specs.Replies.{reply_by, takes_memory};

use crate::run_set::RunSet;
use enumset_commands::{Refusal, Reply, WordList};
use std::alloc::{AllocError, Global};
use std::cmp::Ordering;

/// The answer to one command: its [`Reply`], except that words are given by their set and their count. So an answer
/// takes no memory.
#[derive(Clone, Copy, Debug)]
pub enum Answer<S> {
    /// The command was carried out.
    Done,
    /// Yes or no.
    Truth(bool),
    /// How many members or items there are.
    Count(u64),
    /// The number of a set: the sum of the powers of two of its members.
    Number(u128),
    /// The first `count` words of a set, the lowest first.
    Words {
        /// The set.
        set: S,
        /// How many of its words are meant.
        count: u8,
    },
    /// How one set compares with another.
    Order(Ordering),
    /// The number of a valid bit.
    Bit(u32),
    /// The number of a bit that is not valid.
    Unknown(u32),
    /// There is nothing left, or no such number or set.
    Absent,
    /// The command was refused, and nothing changed.
    Refused(Refusal),
}

impl<S: RunSet> Answer<S> {
    /// Returns the reply of an answer. The only error is out of memory, and only an answer of words takes memory.
    pub fn to_reply(self, alloc: Global) -> Result<Reply, AllocError>
        ensures succeeds { takes_memory (reply_by S.members self) ≡ false → IsOk result }
        ensures reply { IfOk result (λ reply. reply ≡ reply_by S.members self) }
    {
        match self.reply_or_words() {
            Ok(reply) => Ok(reply),
            Err((set, count)) => Ok(Reply::Words(word_list(alloc, set, count)?)),
        }
    }

    /// The reply of an answer, or the set and the count of an answer of words, whose reply takes memory.
    pub(crate) fn reply_or_words(self) -> Result<Reply, (S, u8)>
        ensures reply { IfOk result (λ reply. reply ≡ reply_by S.members self) }
        ensures words { IfErr result (λ cut.
            reply_by S.members self ≡ Words (words (S.members cut.0) cut.1)) }
    {
        Ok(match self {
            Answer::Done => Reply::Done,
            Answer::Truth(holds) => Reply::Truth(holds),
            Answer::Count(count) => Reply::Count(count),
            Answer::Number(number) => Reply::Number(number),
            Answer::Words { set, count } => return Err((set, count)),
            Answer::Order(order) => Reply::Order(order),
            Answer::Bit(bit) => Reply::Bit(bit),
            Answer::Unknown(bit) => Reply::Unknown(bit),
            Answer::Absent => Reply::Absent,
            Answer::Refused(refusal) => Reply::Refused(refusal),
        })
    }
}

/// The first `count` words of a set.
fn word_list<S: RunSet>(alloc: Global, set: S, count: u8) -> Result<WordList, AllocError>
    ensures { IfOk result (λ list. list ≡ words (S.members set) count) }
{
    let mut words = vec![in alloc; 0u64; usize::from(count)]?;
    set.words_cut(&mut words);
    Ok(WordList::from(words))
}
