ghost use Rattle.std.specs.Prelude.{◌≡◌, ◌+◌, ◌<◌, ◌≤◌, [], ◌∷◌, ◌++◌, length, OnErr, OnOk};
ghost use Rattle.std.specs.String.{string_bytes, string_capacity, string_len};
ghost use Rattle.playlist_text.specs.Appended.{AppendsPart};
ghost use Rattle.playlist_text.specs.Lines.{text_of};

use std::alloc::AllocError;

/// Appends a line with its LF (RFC 8216, 4.1).
#[tactic(auto, unfolding(crate::specs::Lines::text_of))]
pub fn push_line(out: &mut String, line: &str) -> Result<(), AllocError>
    ensures ok { OnOk result (string_bytes out.new ≡ string_bytes out.old ++ text_of (line.now ∷ [])) }
    ensures full { OnErr result (string_capacity out.old < string_len out.old + (length line.now + 1)) }
    ensures capacity { string_capacity out.old ≤ string_capacity out.new }
    ensures part { OnErr result (AppendsPart (string_bytes out.old) (text_of (line.now ∷ [])) (string_bytes out.new)) }
{
    out.push_str(line)?;
    out.push_str("\n")
}
