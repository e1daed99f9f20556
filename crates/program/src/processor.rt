//! The processors that the program is built for.

ghost use Rattle.std.specs.Prelude.{◌≡◌, codes, true, false};
ghost use Rattle.program.specs.declared.processor.Processor.TheVariants.{Shuffles, Avx2 as IsAvx2};

/// The processor that a program is built for.
#[derive(Clone, Copy, Debug, PartialEq, Eq)]
pub enum Processor {
    /// Any x86-64 that shuffles bytes.
    Shuffles,
    /// An x86-64 with AVX2.
    Avx2,
}

impl Processor {
    /// Its level, by its name in the psABI (x86-64 psABI, 3.1.1).
    pub fn level(self) -> &'static str
        ensures shuffles { self ≡ Shuffles → result.now ≡ codes "x86-64-v2" }
        ensures avx2 { self ≡ IsAvx2 → result.now ≡ codes "x86-64-v3" }
    {
        match self {
            Processor::Shuffles => "x86-64-v2",
            Processor::Avx2 => "x86-64-v3",
        }
    }

    /// Whether it seals two segments side by side in about the time of one.
    pub fn seals_pairs(self) -> bool
        ensures shuffles { self ≡ Shuffles → result ≡ false }
        ensures avx2 { self ≡ IsAvx2 → result ≡ true }
    {
        self == Processor::Avx2
    }
}
