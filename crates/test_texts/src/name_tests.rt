use crate::asserts::assert_same;
use playlist_text::{is_codecs, is_name};

/// 64 bytes.
const LONGEST_NAME: &str = "0123456789abcdef0123456789abcdef0123456789abcdef0123456789abcdef";

/// 65 bytes.
const LONGER_NAME: &str = "0123456789abcdef0123456789abcdef0123456789abcdef0123456789abcdef0";

#[test]
fn names(rt: HostRuntime) {
    for (name, is) in [
        ("v", true),
        ("hd 1", true),
        ("é", true),
        ("100%", true),
        ("~", true),
        ("Master", true),
        ("masters", true),
        ("\"", true),
        (LONGEST_NAME, true),
        ("", false),
        ("master", false),
        ("a.b", false),
        ("a/b", false),
        ("a:b", false),
        ("a\tb", false),
        ("\u{7F}", false),
        ("\0", false),
        (LONGER_NAME, false),
    ] {
        assert_same(&rt, name, is_name(name), is);
    }
}

/// 128 bytes.
pub(crate) const LONGEST_CODECS: &str =
    "0123456789abcdef0123456789abcdef0123456789abcdef0123456789abcdef\
0123456789abcdef0123456789abcdef0123456789abcdef0123456789abcdef";

/// 129 bytes.
pub(crate) const LONGER_CODECS: &str =
    "0123456789abcdef0123456789abcdef0123456789abcdef0123456789abcdef\
0123456789abcdef0123456789abcdef0123456789abcdef0123456789abcdef0";

#[test]
fn codecs(rt: HostRuntime) {
    for (codecs, are) in [
        ("avc1.4d401e", true),
        ("avc1.4d401e,mp4a.40.2", true),
        (" ", true),
        ("~", true),
        (LONGEST_CODECS, true),
        ("", false),
        ("\"", false),
        ("a\nb", false),
        ("é", false),
        ("\u{7F}", false),
        (LONGER_CODECS, false),
    ] {
        assert_same(&rt, codecs, is_codecs(codecs), are);
    }
}
