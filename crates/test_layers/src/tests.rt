//! The tests, by what they call.

mod advices;
mod books;
mod contexts;
mod engine;
mod flows;
mod frames;
mod keys;
mod lines;
mod messages;
mod places;
mod stamp;
mod stations;
mod steps;
