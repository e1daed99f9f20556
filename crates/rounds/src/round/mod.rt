//! One round: workers at a desk seal its plans, and the calling thread gives them in sequence while it reads the next round.

pub mod crew;
pub mod driving;
pub mod ending;
pub mod feeding;
pub mod joining;
pub mod machine;
pub mod permitted_broadcast;
pub mod permitted_collector;
pub mod ready;
pub mod scoped;
pub mod sealer;
pub mod sealing;
pub mod starting;
pub mod taker;
pub mod taking;
