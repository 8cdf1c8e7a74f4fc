//! What is decided of the traffic with a host, over values: no function starts a thread, waits for one, or shares a
//! cell with one. The threads and links of `sw_hosts` do what is decided here.
//!
//! - [`Answers`] holds the requests that wait and the answers that came, and an [`Outbox`] what is to be written, 64 at
//!   most each, with memory from the start. [`came_in`] says what bytes from a host are.
//! - [`send_over`] and [`receive_over`] are what a link does over any [`Way`] to a host and back. A [`FrameSource`] gives
//!   the thread that writes its frames.
//! - [`is_ordered`] and [`opened_from`] say when a direction is ordered to be opened, [`is_awaited`] whether a message
//!   waits for that; [`is_paused`], [`pause_by`] and [`pause_by_tests`] whether a host is not asked, and what changes
//!   that; [`Watch::duty`] what the thread that writes does where no frame waits. [`echo_frame`] is an echo test.
//! - [`HostState`] and [`Counts`] are what is reported of a host, each with its line.
//!
//! Moments are microseconds of the monotonic clock. A clock is taken only to read the time ([`Moment::now`]) and to
//! sleep for a millisecond at most ([`Naps`]). `heard` is how often something was read from a host: while it is what it
//! was when a pause or an echo test began, the host has sent nothing since.
//!
//! # What is proved
//!
//! What is decided of the traffic with a host, over values.
//!
//! - `Answers::expect` has a request wait exactly where none with its key is under way and fewer than 64
//!   wait; otherwise it hands the request back. `Answers::put` keeps an answer exactly where a request
//!   with its key waits whose card, amount, and date and time of transmission it does not contradict
//!   (`suits`), and fewer than 64 were not taken; that request waits no more (`waits_no_more`).
//!   `Answers::take` takes the answer with a key, `forget` the request and its answer; the others stay.
//! - `Outbox::put` takes no frame where 64 wait. `Outbox::next` takes the first whose deadline has not
//!   come, and says how many before it were dropped.
//! - A direction is ordered to be opened exactly where it is closed, and the last order, if any, came a
//!   second ago or longer (`is_ordered`). A message waits for one that is being opened, and was ordered
//!   less than 100 milliseconds ago (`is_awaited`).
//! - `outgoing_of` makes of a message its frame, and the request that waits for its answer, if the
//!   message has a key (`SentAs`).
//! - `send_over` and `receive_over` are proved of every `Way`. The first enters the way once, with that
//!   request, and where the host is asked it hands the frame over once, with the deadline that it got
//!   (`SendsOver`). It waits for the answer to a message with a key exactly where the way took its frame. Where
//!   memory is refused it has done nothing. The second looks until a look over the way shows something, and
//!   answers what that look showed (`SeesLast`).
//! - A `Frame` is one: four digits of length, and as many bytes.
//! - `WritesGiven` says that what was written are the frames that a source gave, each once and in their order, and
//!   echo tests between them, all whole but the last one. The thread of `sw_hosts` that writes is proved to do so.
//! - Whether a host is not asked now (`is_paused`), and what a look (`pause_by`) and unanswered echo
//!   tests (`pause_by_tests`) change of that, are decisions over values. An answer that does not come
//!   in time begins no pause where the host has answered another request since that one was sent. So is what the thread that
//!   writes does where no frame waits (`duty`): it sleeps, writes an echo test, or gives the host up.
//!   Where both `retry` and `echo` are set, a host from which nothing was read since its pause began is
//!   not asked, however long that is (`tested_from`). Its next echo test is due when `retry` has gone
//!   by since the last one (`next_test`), and a closed direction is ordered without a message, a second
//!   after its last order (`opened_from`).
//! - `echo_frame` is the frame of a network management request with the date and time, in UTC, of the
//!   seconds that it is given, a STAN, and the code 301 (`IsEcho`). `came_in` distinguishes the answer
//!   to an echo test from a message with a key and from bytes without one (`IsCame`).
//! - `Counts::line` is the line of a host's counts (`host_line`).
//! - What is reported of a host follows from the last sign of it (`HostState::after`): something was
//!   read, an opening failed, a direction was closed, an answer did not come in time. A message that
//!   was not sent is a sign only where nothing else is known. `HostState::news` is what is to be
//!   reported where another state was reported last, and `HostState::line` its line (`IsStateLine`); of
//!   the words for an error of the system no contract says anything.
//!
//! # Decisions
//!
//! - **What is decided of a host's traffic is a crate of its own, `sw_wire`**, below its threads and
//!   what these share. Its functions are over values, so their contracts say all that they do; of what
//!   threads share no contract says anything. Alternative: one crate, of which each change in a thread
//!   would prove all decisions again.
#![tactic(auto)]

mod answers;
mod backlog;
mod came;
mod counts;
mod direction;
mod echo;
mod expected;
mod frame;
mod look;
mod moment;
mod outbox;
mod outgoing;
mod pause;
mod received;
mod sent;
mod source;
mod state;
mod suits;
mod times;
mod watch;
mod way;

pub use answers::Answers;
pub use backlog::Picked;
pub use came::{Came, came_in};
pub use counts::Counts;
pub use direction::{DirectionState, is_awaited, is_ordered, opened_from};
pub use echo::echo_frame;
pub use expected::Expected;
pub use frame::Frame;
pub use look::{Look, is_closed};
pub use moment::{Moment, Naps};
pub use outbox::Outbox;
pub use outgoing::Awaited;
pub use pause::{Pause, PauseChange, is_paused, pause_by, pause_by_tests, tested_from};
pub use received::Received;
pub use sent::Sent;
pub use source::FrameSource;
pub use state::{HostSign, HostState};
pub use times::HostTimes;
pub use watch::{Duty, EchoTests, Watch};
pub use way::{Way, receive_over, send_over};
