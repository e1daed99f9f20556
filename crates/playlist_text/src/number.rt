ghost use Rattle.std.specs.Prelude.{◌≡◌, ◌+◌, ◌<◌, ◌≤◌, ◌∷◌, [], ◌++◌, length, OnErr, OnOk};
ghost use Rattle.std.specs.String.{string_bytes, string_capacity, string_len};
ghost use Rattle.std.specs.Fmt.{decimal};
ghost use Rattle.playlist_text.specs.Appended.{AppendsPart};
ghost use Rattle.playlist_text.specs.Numbers;
ghost use Rattle.playlist_text.specs.Numbers.{six_digits, seconds};

use itoa::Buffer;
use std::alloc::AllocError;

/// The whole microseconds of a time in ticks of 1/90000 s, to the nearest.
pub fn micros(ticks: u64) -> u128
    ensures { result ≡ Numbers.micros ticks }
{
    (200 * u128::from(ticks) + 9) / 18
}

/// Microseconds as whole seconds, to the nearest (RFC 8216, 4.3.3.1).
pub fn rounded_seconds(micros: u64) -> u128
    ensures { result ≡ Numbers.rounded_seconds micros }
{
    (u128::from(micros) + 500_000) / 1_000_000
}

/// Appends a decimal integer, with no zeros in front (RFC 8216, 4.2).
pub fn push_decimal(out: &mut String, number: u128) -> Result<(), AllocError>
    ensures ok { OnOk result (string_bytes out.new ≡ string_bytes out.old ++ decimal number) }
    ensures full { OnErr result (string_capacity out.old < string_len out.old + length (decimal number)) }
    ensures capacity { string_capacity out.old ≤ string_capacity out.new }
    ensures part { OnErr result (AppendsPart (string_bytes out.old) (decimal number) (string_bytes out.new)) }
{
    out.push_str(Buffer::new().format(number))
}

/// Appends microseconds as a decimal number of seconds, with six digits behind the point (RFC 8216, 4.2).
#[tactic(auto, unfolding(crate::specs::Numbers::seconds, crate::specs::Numbers::six_digits))]
pub fn push_seconds(out: &mut String, micros: u128) -> Result<(), AllocError>
    ensures ok { OnOk result (string_bytes out.new ≡ string_bytes out.old ++ seconds micros) }
    ensures full { OnErr result (string_capacity out.old < string_len out.old + length (seconds micros)) }
    ensures capacity { string_capacity out.old ≤ string_capacity out.new }
    ensures part { OnErr result (AppendsPart (string_bytes out.old) (seconds micros) (string_bytes out.new)) }
{
    push_decimal(out, micros / 1_000_000)?;
    out.push('.')?;
    push_six_digits(out, micros % 1_000_000)
}

#[tactic(auto, unfolding(crate::specs::Numbers::six_digits))]
fn push_six_digits(out: &mut String, number: u128) -> Result<(), AllocError>
    ensures ok { OnOk result (string_bytes out.new ≡ string_bytes out.old ++ six_digits number) }
    ensures full { OnErr result (string_capacity out.old < string_len out.old + 6) }
    ensures capacity { string_capacity out.old ≤ string_capacity out.new }
    ensures part { OnErr result (AppendsPart (string_bytes out.old) (six_digits number) (string_bytes out.new)) }
{
    push_digit(out, number / 100_000 % 10)?;
    push_digit(out, number / 10_000 % 10)?;
    push_digit(out, number / 1_000 % 10)?;
    push_digit(out, number / 100 % 10)?;
    push_digit(out, number / 10 % 10)?;
    push_digit(out, number % 10)
}

fn push_digit(out: &mut String, digit: u128) -> Result<(), AllocError>
    requires { digit < 10 }
    ensures ok { OnOk result (string_bytes out.new ≡ string_bytes out.old ++ (48 + digit) ∷ []) }
    ensures full { OnErr result (string_capacity out.old < string_len out.old + 1) }
    ensures capacity { string_capacity out.old ≤ string_capacity out.new }
    ensures part { OnErr result (AppendsPart (string_bytes out.old) ((48 + digit) ∷ []) (string_bytes out.new)) }
{
    out.push(char::from(b'0' + digit as u8))
}
