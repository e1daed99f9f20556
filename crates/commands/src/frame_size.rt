//! The size of a rendition's frames, as one word tells it.
ghost use Rattle.std.specs.Prelude.{◌≡◌, ℕ, None, IfSome};
ghost use Rattle.commands.specs.Sizes.{IsNumber, IsSize};

/// Width and height, in pixels.
#[derive(Clone, Copy, Debug, PartialEq, Eq, Drop)]
pub(crate) struct FrameSize {
    pub width: u64,
    pub height: u64,
}

/// The number below 2^64 that decimal digits write, with a plus before them or without.
fn number(text: &str) -> Option<u64>
    ensures some { IfSome result (λ n. IsNumber text.now n) }
    ensures none { result ≡ None → (n : ℕ) → ¬ IsNumber text.now n }
{
    text.parse::<u64>().ok()
}

/// The size that two numbers round an `x` tell; None for any other text.
pub(crate) fn size(text: &str) -> Option<FrameSize>
    ensures some { IfSome result (λ size. IsSize text.now size.width size.height) }
    ensures none { result ≡ None → (width height : ℕ) → ¬ IsSize text.now width height }
{
    let (left, right) = text.split_once('x')?;
    let width = number(left)?;
    let height = number(right)?;
    Some(FrameSize { width, height })
}
