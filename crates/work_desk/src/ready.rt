//! Segments that are ready to be sealed.

ghost use Rattle.std.specs.Prelude.{◌≡◌, IfSome};
ghost use Rattle.segment_job.specs.Segments.{sealed_from};
ghost use Rattle.work_desk.specs.Readiness.{segment_in};

use folder::WriteFile;
use segment_job::{
    Outgoing, Sealed, Unsealed, seal_four, seal_four_outgoing, seal_two, seal_two_outgoing,
};

/// A segment that is ready to be sealed: in memory, or into a file.
pub(crate) enum Ready<'s, F: WriteFile> {
    InMemory(Unsealed<'s>),
    IntoFile(Outgoing<'s, F>),
}

impl<'s, F: WriteFile> Ready<'s, F> {
    /// Seals it. None where its file can't be written.
    pub(crate) fn seal(self) -> Option<Sealed<'s>>
        ensures { IfSome result (λ sealed. sealed ≡ sealed_from (segment_in self.entry)) }
    {
        match self {
            Ready::InMemory(segment) => Some(segment.seal()),
            Ready::IntoFile(segment) => segment.seal(),
        }
    }
}

/// Seals two, side by side where both are sealed in memory, or both into files.
pub(crate) fn seal_both<'s, F: WriteFile>(
    first: Ready<'s, F>,
    second: Ready<'s, F>,
) -> (Option<Sealed<'s>>, Option<Sealed<'s>>)
    ensures first { IfSome result.0 (λ sealed. sealed ≡ sealed_from (segment_in first.entry)) }
    ensures second { IfSome result.1 (λ sealed. sealed ≡ sealed_from (segment_in second.entry)) }
{
    match (first, second) {
        (Ready::InMemory(first), Ready::InMemory(second)) => {
            let (one, two) = seal_two(first, second);
            (Some(one), Some(two))
        }
        (Ready::IntoFile(first), Ready::IntoFile(second)) => seal_two_outgoing(first, second),
        (first, second) => (first.seal(), second.seal()),
    }
}

/// Seals four, side by side where all are sealed in memory, and else two and two.
fn seal_in_memory_or_in_pairs<'s, F: WriteFile>(
    first: Ready<'s, F>,
    second: Ready<'s, F>,
    third: Ready<'s, F>,
    fourth: Ready<'s, F>,
) -> (
    Option<Sealed<'s>>,
    Option<Sealed<'s>>,
    Option<Sealed<'s>>,
    Option<Sealed<'s>>,
)
    ensures first { IfSome result.0 (λ sealed. sealed ≡ sealed_from (segment_in first.entry)) }
    ensures second { IfSome result.1 (λ sealed. sealed ≡ sealed_from (segment_in second.entry)) }
    ensures third { IfSome result.2 (λ sealed. sealed ≡ sealed_from (segment_in third.entry)) }
    ensures fourth { IfSome result.3 (λ sealed. sealed ≡ sealed_from (segment_in fourth.entry)) }
{
    match (first, second, third, fourth) {
        (
            Ready::InMemory(first),
            Ready::InMemory(second),
            Ready::InMemory(third),
            Ready::InMemory(fourth),
        ) => {
            let (one, two, three, four) = seal_four(first, second, third, fourth);
            (Some(one), Some(two), Some(three), Some(four))
        }
        (first, second, third, fourth) => {
            let (one, two) = seal_both(first, second);
            let (three, four) = seal_both(third, fourth);
            (one, two, three, four)
        }
    }
}

/// Seals four, side by side where all are sealed in memory, or all into files, and else two and two.
pub(crate) fn seal_all<'s, F: WriteFile>(
    first: Ready<'s, F>,
    second: Ready<'s, F>,
    third: Ready<'s, F>,
    fourth: Ready<'s, F>,
) -> (
    Option<Sealed<'s>>,
    Option<Sealed<'s>>,
    Option<Sealed<'s>>,
    Option<Sealed<'s>>,
)
    ensures first { IfSome result.0 (λ sealed. sealed ≡ sealed_from (segment_in first.entry)) }
    ensures second { IfSome result.1 (λ sealed. sealed ≡ sealed_from (segment_in second.entry)) }
    ensures third { IfSome result.2 (λ sealed. sealed ≡ sealed_from (segment_in third.entry)) }
    ensures fourth { IfSome result.3 (λ sealed. sealed ≡ sealed_from (segment_in fourth.entry)) }
{
    match (first, second, third, fourth) {
        (
            Ready::IntoFile(first),
            Ready::IntoFile(second),
            Ready::IntoFile(third),
            Ready::IntoFile(fourth),
        ) => seal_four_outgoing(first, second, third, fourth),
        (first, second, third, fourth) => seal_in_memory_or_in_pairs(first, second, third, fourth),
    }
}
