// Numbers at their limits.
use crate::text::number;

#[test]
fn numbers_have_1_to_8_digits(rt: HostRuntime) {
    assert_eq!(rt; number(b"99999999"), Some(99_999_999));
    assert_eq!(rt; number(b"00000040"), Some(40));
    assert_eq!(rt; number(b"000000040"), None);
    assert_eq!(rt; number(b""), None);
    assert_eq!(rt; number(b"+4"), None);
    assert_eq!(rt; number(b"4 "), None);
}
