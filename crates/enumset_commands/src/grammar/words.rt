//! The words of a command.
ghost use Rattle.enumset_commands.specs.Fields.{written_words};
ghost use Rattle.enumset_commands.specs.Texts.{IsReadAs};

use super::tokens::Tokens;
use crate::word_list::WordList;
use std::alloc::{AllocError, Global};

/// The words that tokens write, or `None` if some token is not a word. The only error is out of memory.
///
/// If memory runs out, the remaining tokens are still read.
#[tactic(auto, using(crate::proofs::WordTokens::word_steps))]
pub(super) fn read_words(alloc: Global, mut tokens: Tokens) -> Option<Result<WordList, AllocError>>
    ensures { IsReadAs (written_words tokens.entry) result }
{
    let mut words = Vec::new(alloc);
    let mut has_room = true;
    while !tokens.is_empty() {
        let word = tokens.next_u64()?;
        has_room = has_room && words.push(word).is_ok();
    }
    if has_room {
        Some(Ok(WordList::from(words)))
    } else {
        Some(Err(AllocError))
    }
}
