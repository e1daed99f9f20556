//! Numbers of segments in the names of files and in URIs, each in its one spelling.
ghost use Rattle.std.specs.Prelude.{◌≡◌, ◌≢◌, ◌<◌, ◌^◌, ◌++◌, ℕ, List, Some, IfSome, MatchOption, codes};
ghost use Rattle.std.specs.Fmt.{decimal};
ghost use Rattle.media_reading.specs.State.{number_in};

use itoa::Buffer;

/// The number that stands between two texts in a line, where it is all that does.
pub(crate) fn number_between(line: &[u8], front: &[u8], back: &[u8]) -> Option<u64>
    ensures { result ≡ number_in (λ n. front.now ++ decimal n ++ back.now) (2 ^ 64) line.now }
{
    read_between(line, front, back)
}

/// The same, by what is read.
fn read_between(line: &[u8], front: &[u8], back: &[u8]) -> Option<u64>
    ensures found { IfSome result (λ n. (n < 2 ^ 64) × (line.now ≡ front.now ++ decimal n ++ back.now)) }
    ensures only { (n : ℕ) → n < 2 ^ 64 → line.now ≡ front.now ++ decimal n ++ back.now → result ≡ Some n }
{
    read_decimal(between(line, front, back)?)
}

/// What stands between two texts in a line.
fn between<'a>(line: &'a [u8], front: &[u8], back: &[u8]) -> Option<&'a [u8]>
    ensures { MatchOption result
        ((middle : List ℕ) → line.now ≢ front.now ++ middle ++ back.now)
        (λ middle. line.now ≡ front.now ++ middle.now ++ back.now) }
{
    line.strip_prefix(front)?.strip_suffix(back)
}

/// The number that a decimal text is, without zeros in front.
fn read_decimal(text: &[u8]) -> Option<u64>
    ensures found { IfSome result (λ n. (n < 2 ^ 64) × (text.now ≡ decimal n)) }
    ensures only { (n : ℕ) → n < 2 ^ 64 → text.now ≡ decimal n → result ≡ Some n }
{
    let digits = str::from_utf8(text).ok()?;
    let number: u64 = digits.parse().ok()?;
    if Buffer::new().format(number).as_bytes() == text {
        return Some(number);
    }
    None
}
