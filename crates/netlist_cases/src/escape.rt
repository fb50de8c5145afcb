// The escaped form of a case. \\ is a backslash, \n byte 10, \xNN the byte with that hexadecimal number, and \{BYTE*COUNT} so many times the
// byte with that decimal number; every other byte stands for itself.
ghost use Rattle.std.specs.Prelude.{◌≡◌, ◌<◌, ◌≤◌, ◌++◌, length, replicate, IfSome, MatchResult};

use crate::trouble::Trouble;
use std::alloc::Global;

// A byte, how many times it stands there, and the text that follows.
#[derive(Clone, Copy)]
struct Run<'a> {
    byte: u8,
    count: u32,
    rest: &'a [u8],
}

fn once(byte: u8, rest: &[u8]) -> Run<'_>
    ensures leaves_the_rest { result.rest.now ≡ rest.now }
{
    Run {
        byte,
        count: 1,
        rest,
    }
}

// kept: cases are read by code of their own, so that they share no fault with the libraries
fn hexadecimal(digit: u8) -> Option<u8>
    ensures below_16 { IfSome result (λ number. number < 16) }
{
    match digit {
        b'0'..=b'9' => Some(digit - b'0'),
        b'a'..=b'f' => Some(digit - b'a' + 10),
        _ => None,
    }
}

fn decimal(digits: &[u8]) -> Option<u32> {
    digits.iter().try_fold(0u32, |number, digit| {
        number
            .checked_mul(10)?
            .checked_add(char::from(*digit).to_digit(10)?)
    })
}

// The decimal number that stands before the byte `end`, and the text after that byte.
fn number_before(text: &[u8], end: u8) -> Option<(u32, &[u8])>
    ensures leaves_no_more { IfSome result (λ found. length found.1.now ≤ length text.now) }
{
    let count = text.iter().position(|b| *b == end)?;
    Some((decimal(&text[..count])?, &text[count + 1..]))
}

// What follows a backslash.
fn escaped(text: &[u8]) -> Option<Run<'_>>
    ensures leaves_no_more { IfSome result (λ run. length run.rest.now ≤ length text.now) }
{
    match text {
        [b'\\', rest @ ..] => Some(once(b'\\', rest)),
        [b'n', rest @ ..] => Some(once(b'\n', rest)),
        [b'x', high, low, rest @ ..] => {
            Some(once(16 * hexadecimal(*high)? + hexadecimal(*low)?, rest))
        }
        [b'{', rest @ ..] => {
            let (byte, rest) = number_before(rest, b'*')?;
            let (count, rest) = number_before(rest, b'}')?;
            let byte = u8::try_from(byte).ok()?;
            Some(Run { byte, count, rest })
        }
        _ => None,
    }
}

fn next_run(first: u8, rest: &[u8]) -> Option<Run<'_>>
    ensures leaves_no_more { IfSome result (λ run. length run.rest.now ≤ length rest.now) }
{
    match first {
        b'\\' => escaped(rest),
        byte => Some(once(byte, rest)),
    }
}

// Puts a byte so many times at the end. The room is doubled as one push after another would double it, so that a byte after a long run
// asks for no more.
fn append(bytes: &mut Vec<u8>, byte: u8, count: u32) -> Result<(), Trouble>
    ensures puts_so_many_or_none { MatchResult result (λ _. bytes.new.items ≡ bytes.old.items ++ replicate count byte) (λ _. bytes.new.items ≡ bytes.old.items) }
{
    if count == 1 {
        return Ok(bytes.push(byte)?);
    }
    // kept: `as`, which loses nothing
    let length = bytes.len().saturating_add(count as usize);
    if length > bytes.capacity() {
        let room = length.checked_next_power_of_two().unwrap_or(length);
        // where there is not so much, `resize` asks for what it needs
        let _doubled = bytes.reserve_exact(room.saturating_sub(bytes.len()));
    }
    Ok(bytes.resize(length, byte)?)
}

// The bytes that an escaped text stands for.
pub fn decoded(heap: Global, text: &[u8]) -> Result<Vec<u8>, Trouble> {
    let mut bytes = Vec::new(heap);
    let mut left = text;
    'runs: while let [first, rest @ ..] = left {
        let run = next_run(*first, rest).ok_or(Trouble::Escape)?;
        append(&mut bytes, run.byte, run.count)?;
        left = run.rest;
    }
    Ok(bytes)
}
