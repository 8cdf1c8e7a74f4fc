//! Requests and responses of a multiplexer.

use crate::MEMORY;
use iso_codec::decode;
use iso_msg::Message;
use std::alloc::Global;
use std::collections::{HashMap, VecDeque};
use sw_mux::{Key, Mux, Response, key_of};

const REQUEST: &[u8] = b"01000020000000800000000000TERM0001";

const RESPONSE: &[u8] = b"01100020000000800000000000TERM0001";

/// What holds the keys that wait.
#[derive(Drop)]
enum KeyHolder {
    Mux(Mux),
    Map(HashMap<Key, u64>),
}

impl KeyHolder {
    fn request(&mut self, message: &Message, round: u64) -> Result<(), &'static str> {
        match self {
            KeyHolder::Mux(mux) => match mux.request(message, round) {
                Ok(_) => Ok(()),
                Err(_) => Err("a request was refused"),
            },
            KeyHolder::Map(map) => {
                let Some(key) = key_of(message) else {
                    return Err("a request has no key");
                };
                match map.insert(key, round) {
                    Ok(None) => Ok(()),
                    _ => Err("a request was refused"),
                }
            }
        }
    }

    // Takes a response, and hands its message back.
    fn response(&mut self, message: Message) -> Result<Message, &'static str> {
        match self {
            KeyHolder::Mux(mux) => match mux.response(message) {
                Response::Matched(_, message) => Ok(message),
                Response::Unhandled(_) => Err("a response was not matched"),
            },
            KeyHolder::Map(map) => {
                let Some(key) = key_of(&message) else {
                    return Err("a response has no key");
                };
                match map.remove(&key) {
                    Some(_) => Ok(message),
                    None => Err("a response was not matched"),
                }
            }
        }
    }

    // One key comes to its deadline.
    fn expire(&mut self, alloc: Global, tick: u64) -> Result<(), &'static str> {
        let KeyHolder::Mux(mux) = self else {
            return Err("a map has no deadlines");
        };
        match mux.expire(alloc, tick) {
            Ok(keys) if keys.len() == 1 => Ok(()),
            Ok(_) => Err("not one key was due"),
            Err(_) => Err(MEMORY),
        }
    }
}

fn digits(number: u64) -> [u8; 6] {
    let mut digits = [b'0'; 6];
    let mut rest = number;
    for place in 0..6usize {
        digits[5 - place] = b'0' + (rest % 10) as u8;
        rest /= 10;
    }
    digits
}

// `count` messages of a type, with STANs from 0 on.
fn messages(alloc: Global, bytes: &[u8], count: u64) -> Result<VecDeque<Message>, &'static str> {
    let mut list = VecDeque::new(alloc);
    for number in 0..count {
        let Ok(mut message) = decode(alloc, bytes) else {
            return Err("a message was not read");
        };
        if message.set(alloc, 11, &digits(number)).is_err() {
            return Err("a STAN was not taken");
        }
        if list.push_back(message).is_err() {
            return Err(MEMORY);
        }
    }
    Ok(list)
}

// The message at the front goes to the back, since its key may wait again.
fn next_request(
    waiting: &mut KeyHolder,
    requests: &mut VecDeque<Message>,
    round: u64,
) -> Result<(), &'static str> {
    let Some(message) = requests.pop_front() else {
        return Err("there are no requests");
    };
    waiting.request(&message, round)?;
    match requests.push_back(message) {
        Ok(()) => Ok(()),
        Err(_) => Err(MEMORY),
    }
}

fn next_response(
    waiting: &mut KeyHolder,
    responses: &mut VecDeque<Message>,
) -> Result<(), &'static str> {
    let Some(message) = responses.pop_front() else {
        return Err("there are no responses");
    };
    let message = waiting.response(message)?;
    match responses.push_back(message) {
        Ok(()) => Ok(()),
        Err(_) => Err(MEMORY),
    }
}

fn run_matched(
    alloc: Global,
    waiting: KeyHolder,
    keys: u64,
    rounds: u64,
) -> Result<(), &'static str> {
    let mut waiting = waiting;
    if keys > 999_999 {
        return Err("too many keys: expected at most 999,999");
    }
    let mut requests = messages(alloc, REQUEST, keys + 1)?;
    let mut responses = messages(alloc, RESPONSE, keys + 1)?;
    for round in 0..keys {
        next_request(&mut waiting, &mut requests, round)?;
    }
    for round in 0..rounds {
        next_request(&mut waiting, &mut requests, round)?;
        next_response(&mut waiting, &mut responses)?;
    }
    Ok(())
}

fn run_ticks(alloc: Global, keys: u64, rounds: u64) -> Result<(), &'static str> {
    if keys > 999_999 {
        return Err("too many keys: expected at most 999,999");
    }
    let mut waiting = KeyHolder::Mux(Mux::new(alloc));
    let mut requests = messages(alloc, REQUEST, keys + 1)?;
    for round in 0..keys {
        next_request(&mut waiting, &mut requests, round)?;
    }
    for round in 0..rounds {
        next_request(&mut waiting, &mut requests, keys.saturating_add(round))?;
        waiting.expire(alloc, round)?;
    }
    Ok(())
}

/// Lets `keys` keys wait, and one more `rounds` times.
pub fn run(alloc: Global, what: &str, keys: u64, rounds: u64) -> Result<(), &'static str> {
    match what {
        "mux" => run_matched(alloc, KeyHolder::Mux(Mux::new(alloc)), keys, rounds),
        "map" => run_matched(alloc, KeyHolder::Map(HashMap::new(alloc)), keys, rounds),
        "ticks" => run_ticks(alloc, keys, rounds),
        _ => Err("expected mux, map or ticks"),
    }
}
