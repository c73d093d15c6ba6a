// What is read of a session between two steps, and changes
// nothing: what it asks, and the bytes that were thrown away.
ghost use Rattle.std.specs.Prelude.{◌≡◌, length};
ghost use Rattle.port_words.specs.ToldKept.{refusing_kept};
ghost use Rattle.step_words.specs.Reads.{over_in, low_byte, bytes_from, WantedWords, KeptRead};

use crate::arguments::operation_at;
use crate::ends::session_at;
use crate::whole::{RequestWords, STEP_WORDS, refusing_request, request_words};
use port_words::{KeptWords, refusing_kept_words};
use questions::wanted_at;

// The refusal of an operation that is at its end; 21 where the numbers are of none.
fn refusal_at(words: &[u64]) -> u32
    requires { length words.now ≡ 256 }
    ensures { result ≡ over_in words.now }
{
    match operation_at(words[0], words[1]) {
        None => 21,
        Some(_) => {
            if words[3] == 0 && words[7] < 256 {
                words[7] as u32
            } else {
                21
            }
        }
    }
}

/// What a session asks, once more, without a step; after
/// its end the refusal, 0 where there is none.
/// 21 where the numbers are no session.
pub fn wanted(words: &[u64]) -> RequestWords
    ensures { WantedWords words.now result }
{
    if words.len() != STEP_WORDS {
        return refusing_request(21);
    }
    match session_at(&words[..12]) {
        Some(session) => request_words(wanted_at(session.at)),
        None => refusing_request(refusal_at(words)),
    }
}

// The byte in a number.
fn low_byte(word: u64) -> u8
    ensures { result ≡ low_byte word }
{
    (word % 256) as u8
}

// The bytes that sixteen of the numbers are.
#[tactic(auto, unfolding(crate::specs::Reads::bytes_from))]
fn bytes_at(words: &[u64]) -> [u8; 16]
    requires { length words.now ≡ 256 }
    ensures { result ≡ bytes_from 16 16 words.now }
{
    [
        low_byte(words[16]),
        low_byte(words[17]),
        low_byte(words[18]),
        low_byte(words[19]),
        low_byte(words[20]),
        low_byte(words[21]),
        low_byte(words[22]),
        low_byte(words[23]),
        low_byte(words[24]),
        low_byte(words[25]),
        low_byte(words[26]),
        low_byte(words[27]),
        low_byte(words[28]),
        low_byte(words[29]),
        low_byte(words[30]),
        low_byte(words[31]),
    ]
}

/// The bytes of port 60 that were thrown away so far: at the end, those of the whole run. 21 where
/// the numbers are no session, running or at its end.
pub fn kept(words: &[u64]) -> KeptWords
    ensures { KeptRead words.now result }
{
    if words.len() != STEP_WORDS {
        return refusing_kept_words(21);
    }
    if operation_at(words[0], words[1]).is_none() || words[12] > 16 || words[13] > 4294967295 {
        return refusing_kept_words(21);
    }
    KeptWords {
        refusal: 0,
        port: 0,
        used: 0,
        pairs: 0,
        count: words[12] as u32,
        others: words[13] as u32,
        bytes: bytes_at(words),
    }
}
