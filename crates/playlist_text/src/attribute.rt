ghost use Rattle.std.specs.Prelude.{◌≡◌, ◌+◌, ◌<◌, ◌≤◌, ◌++◌, [], false, length, map, IsOk, OnErr, OnOk};
ghost use Rattle.std.specs.String.{string_bytes, string_capacity, string_len};
ghost use Rattle.playlist_text.specs.Appended.{AppendsPart};
ghost use Rattle.playlist_text.specs.Attributes.{quoted, hexadecimal, resolution, attribute_list};
ghost use Rattle.playlist_text.specs.AttributeValues.{value_text, attribute_text, is_hexadecimal, HaveNoHexadecimal};

use crate::number::push_decimal;
use std::alloc::AllocError;

/// The value of an attribute (RFC 8216, 4.2). A quoted string has no quotes and no ends of lines, an enumerated one no
/// quotes, commas and blanks: the caller's care.
#[derive(Clone, Copy, Debug)]
pub enum Value<'a> {
    Decimal(u64),
    Hexadecimal(&'a [u8; 16]),
    Quoted(&'a str),
    Enumerated(&'a str),
    Resolution(u64, u64),
}

/// An attribute: its name and its value.
#[derive(Clone, Copy, Debug)]
pub struct Attribute<'a> {
    pub name: &'a str,
    pub value: Value<'a>,
}

/// Appends an attribute list: each as its name, `=` and its value, with a comma between two of them.
#[tactic(auto, unfolding(crate::specs::Attributes::attribute_list))]
pub fn push_attribute_list(out: &mut String, attributes: &[Attribute<'_>]) -> Result<(), AllocError>
    ensures ok { OnOk result
        (string_bytes out.new ≡ string_bytes out.old ++ attribute_list (map attribute_text attributes.now)) }
    ensures none { attributes.now ≡ [] → IsOk result }
    ensures full { HaveNoHexadecimal attributes.now → OnErr result
        (string_capacity out.old < string_len out.old + length (attribute_list (map attribute_text attributes.now))) }
    ensures capacity { string_capacity out.old ≤ string_capacity out.new }
    ensures part { OnErr result (AppendsPart (string_bytes out.old) (attribute_list (map attribute_text attributes.now)) (string_bytes out.new)) }
{
    let Some((first, others)) = attributes.split_first() else {
        return Ok(());
    };
    push_attribute(out, first)?;
    for attribute in others {
        out.push_str(",")?;
        push_attribute(out, attribute)?;
    }
    Ok(())
}

fn push_attribute(out: &mut String, attribute: &Attribute<'_>) -> Result<(), AllocError>
    ensures ok { OnOk result (string_bytes out.new ≡ string_bytes out.old ++ attribute_text attribute.now) }
    ensures full { is_hexadecimal attribute.now.value ≡ false → OnErr result
        (string_capacity out.old < string_len out.old + length (attribute_text attribute.now)) }
    ensures capacity { string_capacity out.old ≤ string_capacity out.new }
    ensures part { OnErr result (AppendsPart (string_bytes out.old) (attribute_text attribute.now) (string_bytes out.new)) }
{
    out.push_str(attribute.name)?;
    out.push_str("=")?;
    push_value(out, attribute.value)
}

fn push_value(out: &mut String, value: Value<'_>) -> Result<(), AllocError>
    ensures ok { OnOk result (string_bytes out.new ≡ string_bytes out.old ++ value_text value.entry) }
    ensures full { is_hexadecimal value.entry ≡ false → OnErr result
        (string_capacity out.old < string_len out.old + length (value_text value.entry)) }
    ensures capacity { string_capacity out.old ≤ string_capacity out.new }
    ensures part { OnErr result (AppendsPart (string_bytes out.old) (value_text value.entry) (string_bytes out.new)) }
{
    match value {
        Value::Decimal(number) => push_decimal(out, u128::from(number)),
        Value::Hexadecimal(bytes) => push_hexadecimal(out, bytes),
        Value::Quoted(text) => push_quoted(out, text),
        Value::Enumerated(text) => out.push_str(text),
        Value::Resolution(width, height) => push_resolution(out, width, height),
    }
}

/// Appends bytes as a hexadecimal sequence, in upper case (RFC 8216, 4.2).
#[tactic(auto, unfolding(crate::specs::Attributes::hexadecimal))]
pub fn push_hexadecimal(out: &mut String, bytes: &[u8; 16]) -> Result<(), AllocError>
    ensures ok { OnOk result (string_bytes out.new ≡ string_bytes out.old ++ hexadecimal bytes.now) }
    ensures capacity { string_capacity out.old ≤ string_capacity out.new }
    ensures part { OnErr result (AppendsPart (string_bytes out.old) (hexadecimal bytes.now) (string_bytes out.new)) }
{
    let digits = hex::encode_upper(*out.allocator(), *bytes)?;
    out.push_str("0x")?;
    out.push_str(&digits)
}

/// Appends a quoted string (RFC 8216, 4.2). The text has no quotes and no ends of lines: the caller's care.
#[tactic(auto, unfolding(crate::specs::Attributes::quoted))]
pub fn push_quoted(out: &mut String, text: &str) -> Result<(), AllocError>
    ensures ok { OnOk result (string_bytes out.new ≡ string_bytes out.old ++ quoted text.now) }
    ensures full { OnErr result (string_capacity out.old < string_len out.old + length (quoted text.now)) }
    ensures capacity { string_capacity out.old ≤ string_capacity out.new }
    ensures part { OnErr result (AppendsPart (string_bytes out.old) (quoted text.now) (string_bytes out.new)) }
{
    out.push_str("\"")?;
    out.push_str(text)?;
    out.push_str("\"")
}

/// Appends a width and a height (RFC 8216, 4.2).
#[tactic(auto, unfolding(crate::specs::Attributes::resolution))]
pub fn push_resolution(out: &mut String, width: u64, height: u64) -> Result<(), AllocError>
    ensures ok { OnOk result (string_bytes out.new ≡ string_bytes out.old ++ resolution width height) }
    ensures full { OnErr result (string_capacity out.old < string_len out.old + length (resolution width height)) }
    ensures capacity { string_capacity out.old ≤ string_capacity out.new }
    ensures part { OnErr result (AppendsPart (string_bytes out.old) (resolution width height) (string_bytes out.new)) }
{
    push_decimal(out, u128::from(width))?;
    out.push_str("x")?;
    push_decimal(out, u128::from(height))
}
