// Worked runs of the plain station, by computation: the edges as one list, each call accepted and each refusal met, and examples of
// docs/RULES.md. The functions do nothing; their contracts say what holds.
#![tactic(auto)]

pub mod edges;
pub mod runs;
