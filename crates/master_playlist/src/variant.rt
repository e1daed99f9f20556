use std::marker::Model;

/// A rendition as a master playlist lists it: its name, its codecs (RFC 6381), its size in pixels, and in bits a second
/// the peak and the average rate of its segments and of its I-frames. Clauses see the texts' bytes.
#[derive(Drop)]
pub struct Variant<'a> {
    pub name: &'a str,
    pub codecs: &'a str,
    pub width: u64,
    pub height: u64,
    pub peak: u64,
    pub average: u64,
    pub frame_peak: u64,
    pub frame_average: u64,
}

impl<'a> Model for Variant<'a> {
    ghost use Rattle.master_playlist.specs.Listed.{Listed};

    ghost Value = { Listed };

    ghost use Rattle.master_playlist.specs.State.{listed};

    ghost view = { listed };
}

/// A blank, for a place of an array that isn't used.
impl Default for Variant<'_> {
    ghost use Rattle.std.specs.Prelude.{◌≡◌};
    ghost use Rattle.master_playlist.specs.Listed.{blank};

    ghost is_default = { λ v. v ≡ blank };

    fn default() -> Self {
        Variant {
            name: "",
            codecs: "",
            width: 0,
            height: 0,
            peak: 0,
            average: 0,
            frame_peak: 0,
            frame_average: 0,
        }
    }
}
