//! Segments that are to be sealed, alone or side by side.

ghost use Rattle.std.specs.Prelude.{◌≡◌, IfOk};
ghost use Rattle.cutter.specs.Lent.{lent};
ghost use Rattle.segment_job.specs.Segments.{sealed_from, unsealed_segment};

use crate::keys::Keys;
use crate::plain::head_text;
use crate::sealed::Sealed;
use crate::text::{Text, seal_four_texts, seal_text, seal_two_texts};
use cutter::PlanRef;
use std::alloc::{AllocError, Global};
use std::marker::Model;

/// The segment of a plan before it is sealed, with the key and the vector of its number, and with all the memory that sealing it takes.
/// What it holds is the head alone: sealing copies the body.
///
/// Clauses see its plan, its key and its vector.
#[derive(Drop)]
pub struct Unsealed<'s> {
    plan: PlanRef<'s>,
    text: Text,
}

impl<'s> Model for Unsealed<'s> {
    ghost use Rattle.std.specs.Prelude.{vec_capacity};
    ghost use Rattle.cutter.specs.Lent.{lent};
    ghost use Rattle.segment_job.specs.Segments.{IsUnsealed, UnsealedSegment};

    ghost Value = { UnsealedSegment };

    ghost view = { λ s. record { plan = lent s.plan; key = s.text.key; vector = s.text.vector } };

    ghost invariant = { λ s. IsUnsealed (record { plan = lent s.plan; key = s.text.key; vector = s.text.vector }) s.text.bytes.items
        (vec_capacity s.text.bytes) };
}

impl<'s> Unsealed<'s> {
    /// Copies the head of a plan's segment, and takes the memory in which the segment is sealed. The plan is borrowed as long as the segment is there.
    pub fn of(alloc: Global, plan: PlanRef<'s>, keys: &Keys) -> Result<Unsealed<'s>, AllocError>
        ensures { IfOk result (λ made. made ≡ unsealed_segment keys.now (lent plan.entry)) }
    {
        Unsealed::within(alloc, plan, keys, Vec::new(alloc))
    }

    /// The same, in a buffer: what that held is gone, and more memory is taken only where it has less room than the sealed segment needs.
    pub fn within(
        alloc: Global,
        plan: PlanRef<'s>,
        keys: &Keys,
        buffer: Vec<u8>,
    ) -> Result<Unsealed<'s>, AllocError>
        ensures { IfOk result (λ made. made ≡ unsealed_segment keys.now (lent plan.entry)) }
    {
        let key = keys.key(plan.number);
        let vector = keys.vector(plan.number);
        let text = Text::new(key, vector, head_text(alloc, plan, buffer)?);
        Ok(Unsealed { plan, text })
    }

    /// Seals it: a piece of the body is copied at a time, and encrypted where it lies.
    pub fn seal(self) -> Sealed<'s>
        ensures { result ≡ sealed_from self.entry }
    {
        let Unsealed { plan, mut text } = self;
        seal_text(&mut text, plan.body);
        Sealed::of(plan, text)
    }
}

/// Seals two segments side by side: what [`Unsealed::seal`] makes of each, in less time.
pub fn seal_two<'s>(first: Unsealed<'s>, second: Unsealed<'s>) -> (Sealed<'s>, Sealed<'s>)
    ensures first { result.0 ≡ sealed_from first.entry }
    ensures second { result.1 ≡ sealed_from second.entry }
{
    let Unsealed {
        plan: first_plan,
        text: mut first_text,
    } = first;
    let Unsealed {
        plan: second_plan,
        text: mut second_text,
    } = second;
    seal_two_texts(
        &mut first_text,
        &mut second_text,
        (first_plan.body, second_plan.body),
    );
    (
        Sealed::of(first_plan, first_text),
        Sealed::of(second_plan, second_text),
    )
}

/// Seals four segments side by side: what [`Unsealed::seal`] makes of each, in less time.
pub fn seal_four<'s>(
    first: Unsealed<'s>,
    second: Unsealed<'s>,
    third: Unsealed<'s>,
    fourth: Unsealed<'s>,
) -> (Sealed<'s>, Sealed<'s>, Sealed<'s>, Sealed<'s>)
    ensures first { result.0 ≡ sealed_from first.entry }
    ensures second { result.1 ≡ sealed_from second.entry }
    ensures third { result.2 ≡ sealed_from third.entry }
    ensures fourth { result.3 ≡ sealed_from fourth.entry }
{
    let Unsealed {
        plan: first_plan,
        text: mut first_text,
    } = first;
    let Unsealed {
        plan: second_plan,
        text: mut second_text,
    } = second;
    let Unsealed {
        plan: third_plan,
        text: mut third_text,
    } = third;
    let Unsealed {
        plan: fourth_plan,
        text: mut fourth_text,
    } = fourth;
    seal_four_texts(
        &mut first_text,
        &mut second_text,
        &mut third_text,
        &mut fourth_text,
        (
            first_plan.body,
            second_plan.body,
            third_plan.body,
            fourth_plan.body,
        ),
    );
    (
        Sealed::of(first_plan, first_text),
        Sealed::of(second_plan, second_text),
        Sealed::of(third_plan, third_text),
        Sealed::of(fourth_plan, fourth_text),
    )
}
