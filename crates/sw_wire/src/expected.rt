//! A request whose answer is waited for.

ghost use Rattle.std.specs.Prelude.{◌≡◌, Some};
ghost use Rattle.sw_mux.specs.Keys.{key as key_in};

use iso_msg::Message;
use sw_mux::Key;

/// A request whose answer is waited for.
pub struct Expected {
    /// Its key, which the answer has too.
    pub key: Key,
    /// The request.
    pub request: Message,
    ghost keyed: { key_in request ≡ Some key.bytes },
}

// Written out, so that no caller proves again how its parts are dropped.
impl Drop for Expected {
    fn drop(self) {
        let Expected { key: _, request: _ } = self;
    }
}

impl Expected {
    /// The request with this key.
    pub fn new(key: Key, request: Message) -> Expected
        requires { key_in request ≡ Some key.bytes }
        ensures key { result.key ≡ key }
        ensures request { result.request ≡ request }
    {
        Expected { key, request }
    }
}
