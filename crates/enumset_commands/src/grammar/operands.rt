//! The operands of a command: exactly the fields after its name.
ghost use Rattle.std.specs.Prelude.{◌≡◌};
ghost use Rattle.enumset_commands.specs.Fields.{one, two, three, register, bit, width, value, register_and_words};
ghost use Rattle.enumset_commands.specs.Texts.{IsReadAs};

use super::tokens::Tokens;
use super::words::read_words;
use crate::word_list::WordList;
use std::alloc::{AllocError, Global};

/// Fields are read one by one, up to the first that is not what the name wants.
///
/// These readers, and the readers of each field, are inlined into the tables of names. A call returns several numbers
/// in memory, so a table would clear room for the numbers of all its names before it looks one up.
impl<'a> Tokens<'a> {
    /// A register.
    #[inline(always)]
    pub(crate) fn register(&self) -> Option<u8>
        ensures { result ≡ one register self.now }
    {
        let mut fields = self.same();
        let r = fields.next_u8()?;
        fields.is_empty().then_some(r)
    }

    /// Two registers, or a register and a count, which are numbers of 8 bits.
    #[inline(always)]
    pub(crate) fn two_registers(&self) -> Option<(u8, u8)>
        ensures { result ≡ two register register self.now }
    {
        let mut fields = self.same();
        let a = fields.next_u8()?;
        let b = fields.next_u8()?;
        fields.is_empty().then_some((a, b))
    }

    /// Three registers.
    #[inline(always)]
    pub(crate) fn three_registers(&self) -> Option<(u8, u8, u8)>
        ensures { result ≡ three register register register self.now }
    {
        let mut fields = self.same();
        let to = fields.next_u8()?;
        let a = fields.next_u8()?;
        let b = fields.next_u8()?;
        fields.is_empty().then_some((to, a, b))
    }

    /// A register, and a bit or a width, which are numbers of 32 bits.
    #[inline(always)]
    pub(crate) fn register_and_u32(&self) -> Option<(u8, u32)>
        ensures { result ≡ two register bit self.now }
    {
        let mut fields = self.same();
        let r = fields.next_u8()?;
        let number = fields.next_u32()?;
        fields.is_empty().then_some((r, number))
    }

    /// A register, a width and a value.
    #[inline(always)]
    pub(crate) fn register_width_value(&self) -> Option<(u8, u32, u128)>
        ensures { result ≡ three register width value self.now }
    {
        let mut fields = self.same();
        let r = fields.next_u8()?;
        let width = fields.next_u32()?;
        let value = fields.next_u128()?;
        fields.is_empty().then_some((r, width, value))
    }
}

/// A register, and any number of words. The only error is out of memory. If some field is not as it should be, the
/// result is `None`, even if memory runs out.
pub(crate) fn register_and_words(
    alloc: Global,
    mut fields: Tokens,
) -> Option<Result<(u8, WordList), AllocError>>
    ensures { IsReadAs (register_and_words fields.entry) result }
{
    let r = fields.next_u8()?;
    match read_words(alloc, fields)? {
        Ok(words) => Some(Ok((r, words))),
        Err(error) => Some(Err(error)),
    }
}
