//! `{:?}` texts, and sizes.
use enumset_array::{ArrayIter, ArrayRepr, End, ShownRow};
use enumset_repr::EnumSetTypeRepr;
use std::mem::size_of;
use std::test::Fail;

const TEXTS: &str = "\
    ArrayRepr([8, 1])\n\
    ShownRow { row: Words { words: [PrimitiveIter(8), PrimitiveIter(1)], asks: Asks }, shown: 0 }\n\
    ArrayIter { row: Words { words: [PrimitiveIter(0), PrimitiveIter(0)], asks: Asks }, \
    cursors: Cursors { front: 1, back: 2 } }\n\
    Back";

#[test]
fn debug_texts(rt: HostRuntime) -> Result<(), Fail> {
    let repr = ArrayRepr([8, 1]);
    let row = ShownRow::new(repr);
    let mut iter = repr.iter();
    assert_eq!(rt; [iter.next(), iter.next()], [Some(3), Some(64)]);
    let text = format!(in rt.alloc(); "{repr:?}\n{row:?}\n{iter:?}\n{:?}", End::Back)?;
    assert_eq!(rt; text.as_str(), TEXTS);
    Ok(())
}

const TEXTS_OF_FEW_WORDS: &str = "\
    ArrayRepr([]) ArrayIter { row: Words { words: [], asks: Asks }, cursors: Cursors { front: 0, back: 0 } }\n\
    ArrayRepr([8]) ArrayIter { row: Words { words: [PrimitiveIter(8)], asks: Asks }, \
    cursors: Cursors { front: 0, back: 1 } }";

#[test]
fn debug_texts_of_no_word_and_of_one(rt: HostRuntime) -> Result<(), Fail> {
    let (none, one) = (ArrayRepr([]), ArrayRepr([8]));
    let (no_items, items) = (none.iter(), one.iter());
    let text = format!(in rt.alloc(); "{none:?} {no_items:?}\n{one:?} {items:?}")?;
    assert_eq!(rt; text.as_str(), TEXTS_OF_FEW_WORDS);
    Ok(())
}

#[test]
fn the_count_takes_no_bytes(rt: HostRuntime) {
    let sizes = [
        size_of::<ArrayIter<0>>(),
        size_of::<ArrayIter<3>>(),
        size_of::<ShownRow<3>>(),
    ];
    assert_eq!(rt; sizes, [16, 40, 32]);
}
