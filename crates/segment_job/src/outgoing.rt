//! Segments that are sealed into files, alone or side by side.

ghost use Rattle.std.specs.Prelude.{◌≡◌, [], IfOk, IfSome, OnOk, Some};
ghost use Rattle.cutter.specs.Lent.{lent};
ghost use Rattle.segment_job.specs.IntoFiles.{IsOutgoing, made_of};
ghost use Rattle.segment_job.specs.Segments.{IsSealed, sealed_from, unsealed_segment};

use crate::keys::Keys;
use crate::plain::head_alone;
use crate::sealed::Sealed;
use crate::text::Text;
use aes_cbc::{Key, SealFault, seal_four_into, seal_into, seal_two_into};
use cutter::PlanRef;
use folder::WriteFile;
use std::alloc::{AllocError, Global};
use std::marker::Model;

/// The segment of a plan that is to be sealed into a file, with the key and the vector of its number. What is held of it is never more
/// than its head and a chunk.
///
/// Clauses see its plan, its key and its vector.
#[derive(Drop)]
pub struct Outgoing<'s, F: WriteFile> {
    plan: PlanRef<'s>,
    text: Text,
    file: F,
}

impl<'s, F: WriteFile> Model for Outgoing<'s, F> {
    ghost use Rattle.cutter.specs.Lent.{lent};
    ghost use Rattle.segment_job.specs.IntoFiles.{IsOutgoing, made_of};
    ghost use Rattle.segment_job.specs.Segments.{UnsealedSegment};

    ghost Value = { UnsealedSegment };

    ghost view = { λ s. made_of (lent s.plan) s.text };

    ghost invariant = { λ s. IsOutgoing (made_of (lent s.plan) s.text) s.text.bytes.items (F.contents s.file) };
}

impl<'s, F: WriteFile> Outgoing<'s, F> {
    /// Copies the head of a plan's segment, which is to be sealed into a file in which there is nothing yet. Where there is no memory
    /// for that, the file is given up.
    pub fn of(
        alloc: Global,
        plan: PlanRef<'s>,
        keys: &Keys,
        file: F,
    ) -> Result<Outgoing<'s, F>, AllocError>
        requires { F.contents file ≡ Some [] }
        ensures { IfOk result (λ made. made ≡ unsealed_segment keys.now (lent plan.entry)) }
    {
        let key = keys.key(plan.number);
        let vector = keys.vector(plan.number);
        match head_alone(alloc, plan) {
            Ok(head) => {
                let text = Text::new(key, vector, head);
                Ok(Outgoing { plan, text, file })
            }
            Err(fault) => {
                file.give_up();
                Err(fault)
            }
        }
    }

    /// Its plan, its text, which is the head as yet, and its file.
    fn into_parts(self) -> (PlanRef<'s>, Text, F)
        ensures made { made_of (lent result.0) result.1 ≡ self.entry }
        ensures begun { IsOutgoing (made_of (lent result.0) result.1) result.1.bytes.items (F.contents result.2) }
    {
        let Outgoing { plan, text, file } = self;
        (plan, text, file)
    }

    /// Seals it into its file. None where that can't be written whole: then it's gone.
    pub fn seal(self) -> Option<Sealed<'s>>
        ensures { IfSome result (λ sealed. sealed ≡ sealed_from self.entry) }
    {
        let (plan, mut text, mut file) = self.into_parts();
        let Text { key, vector, bytes } = &mut text;
        let answer = seal_into(&Key::new(*key), vector, bytes, plan.body, &mut file);
        finished(plan, text, file, answer)
    }
}

/// The segment that was sealed into a file, or not: then that is given up.
fn finished<'s, F: WriteFile>(
    plan: PlanRef<'s>,
    text: Text,
    file: F,
    answer: Result<(), SealFault>,
) -> Option<Sealed<'s>>
    requires sealed { IsSealed (sealed_from (made_of (lent plan) text)) }
    requires written { OnOk answer (F.contents file ≡ Some (sealed_from (made_of (lent plan) text)).bytes) }
    ensures { IfSome result (λ sealed. sealed ≡ sealed_from (made_of (lent plan.entry) text)) }
{
    if answer.is_err() {
        file.give_up();
        return None;
    }
    let file = file.finish()?;
    Some(Sealed::in_file(plan, text.key, text.vector, file))
}

/// Seals two segments into their files side by side: what [`Outgoing::seal`] makes of each, in less time.
pub fn seal_two_outgoing<'s, F: WriteFile>(
    first: Outgoing<'s, F>,
    second: Outgoing<'s, F>,
) -> (Option<Sealed<'s>>, Option<Sealed<'s>>)
    ensures first { IfSome result.0 (λ sealed. sealed ≡ sealed_from first.entry) }
    ensures second { IfSome result.1 (λ sealed. sealed ≡ sealed_from second.entry) }
{
    let (first_plan, mut first_text, mut first_file) = first.into_parts();
    let (second_plan, mut second_text, mut second_file) = second.into_parts();
    let (one, two) = seal_two_into(
        (&Key::new(first_text.key), &Key::new(second_text.key)),
        &[first_text.vector, second_text.vector],
        &mut first_text.bytes,
        &mut second_text.bytes,
        (first_plan.body, second_plan.body),
        &mut first_file,
        &mut second_file,
    );
    (
        finished(first_plan, first_text, first_file, one),
        finished(second_plan, second_text, second_file, two),
    )
}

/// Seals four segments into their files side by side: what [`Outgoing::seal`] makes of each, in less time.
pub fn seal_four_outgoing<'s, F: WriteFile>(
    first: Outgoing<'s, F>,
    second: Outgoing<'s, F>,
    third: Outgoing<'s, F>,
    fourth: Outgoing<'s, F>,
) -> (
    Option<Sealed<'s>>,
    Option<Sealed<'s>>,
    Option<Sealed<'s>>,
    Option<Sealed<'s>>,
)
    ensures first { IfSome result.0 (λ sealed. sealed ≡ sealed_from first.entry) }
    ensures second { IfSome result.1 (λ sealed. sealed ≡ sealed_from second.entry) }
    ensures third { IfSome result.2 (λ sealed. sealed ≡ sealed_from third.entry) }
    ensures fourth { IfSome result.3 (λ sealed. sealed ≡ sealed_from fourth.entry) }
{
    let (first_plan, mut first_text, mut first_file) = first.into_parts();
    let (second_plan, mut second_text, mut second_file) = second.into_parts();
    let (third_plan, mut third_text, mut third_file) = third.into_parts();
    let (fourth_plan, mut fourth_text, mut fourth_file) = fourth.into_parts();
    let (one, two, three, four) = seal_four_into(
        (
            &Key::new(first_text.key),
            &Key::new(second_text.key),
            &Key::new(third_text.key),
            &Key::new(fourth_text.key),
        ),
        &[
            first_text.vector,
            second_text.vector,
            third_text.vector,
            fourth_text.vector,
        ],
        &mut first_text.bytes,
        &mut second_text.bytes,
        &mut third_text.bytes,
        &mut fourth_text.bytes,
        (
            first_plan.body,
            second_plan.body,
            third_plan.body,
            fourth_plan.body,
        ),
        &mut first_file,
        &mut second_file,
        &mut third_file,
        &mut fourth_file,
    );
    (
        finished(first_plan, first_text, first_file, one),
        finished(second_plan, second_text, second_file, two),
        finished(third_plan, third_text, third_file, three),
        finished(fourth_plan, fourth_text, fourth_file, four),
    )
}
