//! Numbers in lines, each in its one spelling (RFC 8216, 4.2).

ghost use Rattle.std.specs.Prelude.{◌≡◌, ◌≢◌, List, ◌<◌, ◌≤◌, ◌+◌, ◌^◌, ◌++◌, ℕ, Some, IfSome, MatchOption};
ghost use Rattle.std.specs.Fmt.{decimal};
ghost use Rattle.playlist_text.specs.Numbers.{six_digits};
ghost use Rattle.playlist_text.specs.MediaLines.{duration_line};
ghost use Rattle.media_reading.specs.State.{number_in};

use itoa::Buffer;

/// The number that a decimal text is, without zeros in front.
pub fn read_decimal(text: &[u8]) -> Option<u64>
    ensures found { IfSome result (λ n. text.now ≡ decimal n) }
    ensures only { (n : ℕ) → n < 2 ^ 64 → text.now ≡ decimal n → result ≡ Some n }
{
    let digits = str::from_utf8(text).ok()?;
    let number: u64 = digits.parse().ok()?;
    if Buffer::new().format(number).as_bytes() == text {
        return Some(number);
    }
    None
}

/// What stands between two texts in a line.
fn between<'a>(line: &'a [u8], front: &[u8], back: &[u8]) -> Option<&'a [u8]>
    ensures { MatchOption result
        ((middle : List ℕ) → line.now ≢ front.now ++ middle ++ back.now)
        (λ middle. line.now ≡ front.now ++ middle.now ++ back.now) }
{
    line.strip_prefix(front)?.strip_suffix(back)
}

/// The number that stands between two texts in a line, where it is all that does.
pub fn read_between(line: &[u8], front: &[u8], back: &[u8]) -> Option<u64>
    ensures found { IfSome result (λ n. line.now ≡ front.now ++ decimal n ++ back.now) }
    ensures only { (n : ℕ) → n < 2 ^ 64 → line.now ≡ front.now ++ decimal n ++ back.now → result ≡ Some n }
{
    read_decimal(between(line, front, back)?)
}

/// The number behind a tag, below a bound.
pub fn read_tagged(line: &[u8], tag: &[u8], bound: u64) -> Option<u64>
    ensures { result ≡ number_in (λ n. tag.now ++ decimal n) bound line.now }
{
    let n = read_between(line, tag, b"")?;
    if n >= bound {
        return None;
    }
    Some(n)
}

/// The microseconds of a line with a duration: whole seconds, a point and six digits.
pub fn read_duration(line: &[u8]) -> Option<u64>
    ensures { result ≡ number_in duration_line (2 ^ 64) line.now }
{
    read_seconds(line)
}

/// The same, by its parts.
fn read_seconds(line: &[u8]) -> Option<u64>
    ensures found { IfSome result (λ micros. (micros < 2 ^ 64) × (line.now ≡ duration_line micros)) }
    ensures only { (micros : ℕ) → micros < 2 ^ 64 → line.now ≡ duration_line micros → result ≡ Some micros }
{
    let seconds = between(line, b"#EXTINF:", b",")?;
    let (front, digits) = seconds.split_last_chunk::<6>()?;
    let whole = read_between(front, b"", b".")?;
    let rest = read_six_digits(digits)?;
    let micros = u128::from(whole) * 1_000_000 + u128::from(rest);
    if micros > u128::from(u64::MAX) {
        return None;
    }
    Some(micros as u64)
}

/// The number that six decimal digits are, zeros in front.
#[tactic(auto, unfolding(playlist_text::specs::Numbers::six_digits))]
fn read_six_digits(digits: &[u8; 6]) -> Option<u64>
    ensures found { IfSome result (λ n. (n < 1_000_000) × (digits.now ≡ six_digits n)) }
    ensures only { (n : ℕ) → n < 1_000_000 → digits.now ≡ six_digits n → result ≡ Some n }
{
    let [a, b, c, d, e, f] = *digits;
    let front = 100 * digit(a)? + 10 * digit(b)? + digit(c)?;
    let back = 100 * digit(d)? + 10 * digit(e)? + digit(f)?;
    Some(1000 * front + back)
}

/// The value of a decimal digit.
fn digit(byte: u8) -> Option<u64>
    ensures { MatchOption result (¬ ((48 ≤ byte) × (byte < 58))) (λ n. (byte ≡ 48 + n) × (n < 10)) }
{
    if byte.is_ascii_digit() {
        Some(u64::from(byte - b'0'))
    } else {
        None
    }
}
