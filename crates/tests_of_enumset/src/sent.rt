//! Sets that are sent and read again, at a type.

use crate::expect::expect;
use crate::reading_newer::read_by_older;
use crate::sending_json::{sent_as_list_text, sent_as_number, sent_as_words, sent_with_unknown};
use enumset::EnumSet;
use enumset::set::MixedEnumSet;
use enumset::set_json::{JsonWidth, Unknown};
use std::test::Fail;
use types_for_tests::{LaterLetters, NamedLetters};

#[test]
fn flags_are_sent(rt: HostRuntime) -> Result<(), Fail> {
    let (alloc, flags) = (
        rt.alloc(),
        EnumSet::from([NamedLetters::A, NamedLetters::G]),
    );
    let read = [
        sent_as_number(alloc, &flags, JsonWidth::U8, Unknown::Refuse)?,
        sent_as_words(alloc, &flags, Unknown::Refuse)?,
        sent_as_list_text(alloc, &flags, Unknown::Refuse)?,
    ];
    for set in read {
        expect(&rt, "sent", set.as_u8_truncated(), 65);
    }
    let mixed = MixedEnumSet::<NamedLetters>::from_repr(129);
    let read = sent_with_unknown(alloc, &mixed)?;
    expect(&rt, "mixed", read.as_repr(), 129);
    let read: EnumSet<NamedLetters> = read_by_older(alloc, &EnumSet::<LaterLetters>::all())?;
    expect(&rt, "older", read.as_u8_truncated(), 127);
    Ok(())
}
