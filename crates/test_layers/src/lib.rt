//! Tests of what no subcommand reaches: public functions of flows, contexts, participants, the engine, the machine
//! and the trace of transactions, of messages, frames, the multiplexer, the book and the sender of advices, or values
//! that no subcommand gives them. Each file's head says where the rest is tested, and expected values are those of
//! the documents or worked out by hand. The helpers have no contract, so that the proof of a test carries no values,
//! and few return early.
#![tactic(auto)]

#[cfg(test)]
mod tests;
