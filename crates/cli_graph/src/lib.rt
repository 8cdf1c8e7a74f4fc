//! Pictures of flows: the text of a graph, for Mermaid or for Graphviz.
//!
//! A group is a box with its name at its head, and its entries in their order. An entry is a rectangle, or a
//! hexagon if the participant is a selector, with the participant's name and its other marks. Plain arrows lead
//! from a group's head through its entries. A bold arrow leads from each selector to the head of each group: a
//! flow does not say which groups a selector names. A dashed arrow leads from a group's head through the entries
//! that are called while a transaction aborts: those that are abort-aware, and selectors.
//!
//! Promised here: [`picture`] gives exactly the text that `specs/Picture.antt` has for the flow, in which each
//! group and each entry has one line, in the flow's order; [`draw`] writes it to an output.
//!
//! # What is proved
//!
//! `picture` gives exactly the text of a flow's picture, for Mermaid or for Graphviz: a line for each
//! group and each entry, in the flow's order, and the arrows of each group (`specs/Picture.antt`).
#![tactic(auto)]

mod drawing;
mod nodes;
mod paths;

pub use drawing::{draw, picture};
