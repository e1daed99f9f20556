ghost use Rattle.std.specs.Prelude.{◌≡◌};
ghost use Rattle.std.specs.List.{list_all};
ghost use Rattle.playlist_text.specs.Names;

/// Whether a text may be the name of a rendition: 1 to 64 bytes of UTF-8 without ASCII controls, `/`, `.` and `:`, and not
/// `master`.
#[tactic(auto, unfolding(crate::specs::Names::is_name))]
pub fn is_name(name: &str) -> bool
    ensures { result ≡ Names.is_name name.now }
{
    let bytes = name.as_bytes();
    bytes.len() >= 1 && bytes.len() <= 64 && are_name_bytes(bytes) && name != "master"
}

fn are_name_bytes(bytes: &[u8]) -> bool
    ensures { result ≡ list_all Names.is_name_byte bytes.now }
{
    bytes.iter().all(|b| is_name_byte(*b))
}

fn is_name_byte(b: u8) -> bool
    ensures { result ≡ Names.is_name_byte b }
{
    b >= 0x20 && b != 0x7F && b != b'/' && b != b'.' && b != b':'
}

/// Whether a text may be the codecs of a rendition: 1 to 128 bytes of printable ASCII without quotes (RFC 8216, 4.2).
#[tactic(auto, unfolding(crate::specs::Names::is_codecs))]
pub fn is_codecs(codecs: &str) -> bool
    ensures { result ≡ Names.is_codecs codecs.now }
{
    let bytes = codecs.as_bytes();
    bytes.len() >= 1 && bytes.len() <= 128 && are_quotable(bytes)
}

fn are_quotable(bytes: &[u8]) -> bool
    ensures { result ≡ list_all Names.is_quotable_byte bytes.now }
{
    bytes.iter().all(|b| is_quotable_byte(*b))
}

fn is_quotable_byte(b: u8) -> bool
    ensures { result ≡ Names.is_quotable_byte b }
{
    b >= 0x20 && b <= 0x7E && b != b'"'
}
