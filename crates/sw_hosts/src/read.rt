//! What the thread that reads from a host does.

use crate::opener::OpenReader;
use crate::threads::HostThread;
use std::io::{ErrorKind, Read};
use std::sync::Wait;
use sw_frame::Framer;
use sw_wire::HostSign;

/// How many bytes one read takes at most.
const PIECE: usize = 4_096;

impl<R: Wait> HostThread<'_, R> {
    /// Reads messages from the host each time this direction is opened, until it is closed.
    pub fn keep_reading<I: OpenReader>(&self, opener: I) {
        let mut opener = opener;
        for _ in self.rt.forever() {
            self.shared.from.await_order(self.rt);
            let sign = match opener.open() {
                Ok(reader) => {
                    self.shared.from.opened();
                    self.read_messages(reader);
                    HostSign::Closed
                }
                Err(error) => HostSign::of_error(&error),
            };
            self.shared.state.note(sign);
            self.shared.from.closed();
        }
    }

    // Reads messages until the end, a read that fails, or bytes that are not frames.
    fn read_messages<I: Read + Drop>(&self, reader: I) {
        let mut reader = reader;
        let mut framer = Framer::new(self.alloc);
        let mut piece = [0; PIECE];
        for _ in self.rt.forever() {
            let count = match reader.read(&mut piece) {
                Ok(0) => return,
                Ok(count) => count,
                Err(error) => {
                    if error.kind() == ErrorKind::Interrupted {
                        continue;
                    }
                    return;
                }
            };
            self.shared.hear();
            let Ok(messages) = framer.feed(&piece[..count]) else {
                return;
            };
            self.deliver_all(messages);
            // Frames that came before a bad length are delivered all the same.
            if framer.failed() {
                return;
            }
        }
    }

    fn deliver_all(&self, messages: Vec<Vec<u8>>) {
        for message in messages {
            self.shared.deliver(self.rt, self.alloc, message);
        }
    }
}
