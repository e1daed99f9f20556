//! What a queue hands out.

ghost use Rattle.std.specs.Prelude.{◌≡◌};
ghost use Rattle.cutter.specs.Lent.{lent};
ghost use Rattle.flow_core.specs.Steps.{delivery_of};

use crate::outcome::Outcome;
use cutter::PlanRef;
use std::marker::Model;

/// What a queue hands out: an outcome, with the rendition and the number of its plan. Nobody else makes one.
#[derive(Debug, Drop)]
pub struct Delivery<'s> {
    rendition: usize,
    number: u64,
    outcome: Outcome<'s>,
}

impl<'s> Model for Delivery<'s> {
    ghost use Rattle.flow_core.specs.Steps.{Delivered};

    ghost Value = { Delivered };

    ghost view = { λ d. record { rendition = d.rendition; number = d.number; outcome = d.outcome } };
}

impl<'s> Delivery<'s> {
    /// What became of a plan.
    pub(crate) fn of(plan: PlanRef<'s>, outcome: Outcome<'s>) -> Delivery<'s>
        ensures { result ≡ delivery_of (lent plan.entry) outcome.entry }
    {
        Delivery {
            rendition: plan.rendition,
            number: plan.number,
            outcome,
        }
    }

    /// The rendition of the plan.
    pub fn rendition(&self) -> usize
        ensures { result ≡ self.now.rendition }
    {
        self.rendition
    }

    /// The number of the plan.
    pub fn number(&self) -> u64
        ensures { result ≡ self.now.number }
    {
        self.number
    }

    /// What became of the plan.
    pub fn outcome(&self) -> &Outcome<'s>
        ensures { result.now ≡ self.now.outcome }
    {
        &self.outcome
    }

    /// The rendition and the number of the plan, and what became of it.
    pub fn into_parts(self) -> (usize, u64, Outcome<'s>)
        ensures rendition { result.0 ≡ self.entry.rendition }
        ensures number { result.1 ≡ self.entry.number }
        ensures outcome { result.2 ≡ self.entry.outcome }
    {
        let Delivery {
            rendition,
            number,
            outcome,
        } = self;
        (rendition, number, outcome)
    }
}
