//! The text of replies.
ghost use Rattle.std.specs.Prelude.{◌≡◌, ◌++◌, codes, OnOk};
ghost use Rattle.std.specs.String.{string_bytes};
ghost use Rattle.std.specs.Fmt.{decimal};
ghost use Rattle.enumset_commands.specs.Texts.{text_of};
ghost use Rattle.enumset_commands.specs.declared.reply.Reply.TheVariants.{Words};

use crate::reply::Reply;
use std::alloc::AllocError;
use std::cmp::Ordering;

/// Writes the text of a reply and a line feed. The only error is out of memory.
pub fn write_reply(out: &mut String, reply: &Reply) -> Result<(), AllocError>
    ensures { OnOk result
        (string_bytes out.new ≡ string_bytes out.old ++ text_of reply.now ++ codes "\n") }
{
    match reply {
        Reply::Done => out.push_str("ok\n"),
        Reply::Truth(true) => out.push_str("true\n"),
        Reply::Truth(false) => out.push_str("false\n"),
        Reply::Count(count) => write_number(out, u128::from(*count)),
        Reply::Number(number) => write_number(out, *number),
        Reply::Words(words) => write_words(out, words.as_slice()),
        Reply::Order(Ordering::Less) => out.push_str("less\n"),
        Reply::Order(Ordering::Equal) => out.push_str("equal\n"),
        Reply::Order(Ordering::Greater) => out.push_str("greater\n"),
        Reply::Bit(bit) => {
            out.push_str("bit ")?;
            write_number(out, u128::from(*bit))
        }
        Reply::Unknown(bit) => {
            out.push_str("unknown ")?;
            write_number(out, u128::from(*bit))
        }
        Reply::Absent => out.push_str("none\n"),
        Reply::Refused(refusal) => {
            out.push_str(refusal.as_str())?;
            out.push('\n')
        }
    }
}

/// Writes the text of a reply of these words and a line feed, as [`write_reply`] does. The only error is out of memory.
pub fn write_words(out: &mut String, words: &[u64]) -> Result<(), AllocError>
    ensures { OnOk result (string_bytes out.new
        ≡ string_bytes out.old ++ text_of (Words words.now) ++ codes "\n") }
{
    out.push_str("words")?;
    for word in words {
        write!(out, " {word}")?;
    }
    out.push('\n')
}

/// Writes a number and a line feed.
///
/// It is not inlined, since replies without a number would then clear room for a formatter.
#[inline(never)]
fn write_number(out: &mut String, number: u128) -> Result<(), AllocError>
    ensures { OnOk result
        (string_bytes out.new ≡ string_bytes out.old ++ decimal number ++ codes "\n") }
{
    Ok(writeln!(out, "{number}")?)
}
