use super::*;
use std::test::Fail;

#[test]
fn numbers_below_a_thousand_share_a_priority(rt: HostRuntime) {
    for (item, priority) in [(0u64, 0u64), (999, 0), (1000, 1), (2001, 2)] {
        assert_eq!(rt; item.number(), item);
        assert_eq!(rt; item.priority(), priority);
        assert_eq!(rt; item.shown_number(), item);
        assert_eq!(rt; item.shown_priority(), priority);
    }
}

#[test]
fn a_fault_is_not_zero(rt: HostRuntime) {
    assert!(rt; Fault::new(0).is_none());
    assert_eq!(rt; Fault::new(65_535).map(|fault| fault.code()), Some(65_535));
}

#[test]
fn a_word_and_a_text_keep_their_bytes(rt: HostRuntime) -> Result<(), Fail> {
    let word = Word::new(rt.alloc(), b"orders.csv");
    assert!(rt; matches!(&word, Ok(word) if word.bytes() == b"orders.csv".as_slice()));
    let text = Text::from_vec(Vec::from_slice(rt.alloc(), b"ending,done\n")?);
    assert_eq!(rt; text.bytes(), b"ending,done\n".as_slice());
    Ok(())
}

#[test]
fn a_number_is_one_to_twenty_digits(rt: HostRuntime) {
    let table = [
        (b"0".as_slice(), Some(0)),
        (b"00000000000000000007".as_slice(), Some(7)),
        (b"000000000000000000007".as_slice(), None),
        (b"18446744073709551615".as_slice(), Some(u64::MAX)),
        (b"18446744073709551616".as_slice(), None),
        (b"".as_slice(), None),
        (b"+5".as_slice(), None),
        (b"-0".as_slice(), None),
        (b"5 ".as_slice(), None),
    ];
    for (word, number) in table {
        assert_eq!(rt; word_number(word), number, "{word:?}");
    }
}
