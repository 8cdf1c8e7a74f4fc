//! Hosts at the other end of pipes, which each test plays itself: what `tests/hosts.py` cannot reach by the program.

mod reaching;
mod reporting;
mod wires;
