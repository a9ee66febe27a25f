// The numbers are those of hashlib of Python.
use crate::key_set;

#[test]
fn keys_have_their_sets(rt: HostRuntime) {
    assert_eq!(rt; key_set(2, 100, 8, b"", b"accounts"), Some(338));
    assert_eq!(rt; key_set(2, 100, 8, b"accounts", b"folder"), Some(341));
    assert_eq!(rt; key_set(5, 65_531, 1, b"", b"abc"), Some(57_875));
    assert_eq!(rt; key_set(6, 65_531, 1, b"", b"abc"), None);
    assert_eq!(rt; key_set(0, 1, 2, b"a", b""), Some(1));
    assert_eq!(rt; key_set(0, 1, 1, b"a", b""), None);
}
