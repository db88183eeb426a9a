//! The bytes that a line of a file stands for.
use crate::fault::Wrong;

/// What the escape so far says.
#[derive(Clone, Copy)]
enum State {
    /// There is none.
    Plain,
    /// A backslash.
    Begun,
    /// A backslash and an `x`.
    Byte,
    /// The same, and a digit of this number.
    HalfByte(u8),
    /// A backslash, a brace and digits of this number.
    Times(usize),
}

/// Appends what a line stands for, with its end, if a backslash doesn't take it away.
pub fn push_line(to: &mut Vec<u8>, line: &str, end: &[u8]) -> Result<(), Wrong> {
    let mut state = State::Plain;
    for byte in line.bytes() {
        state = push_next(to, state, byte)?;
    }
    match state {
        State::Plain => to.extend_from_slice(end)?,
        State::Begun => {}
        _ => return Err(Wrong::Why("an escape has no end")),
    }
    Ok(())
}

/// Takes one more byte of a line.
fn push_next(to: &mut Vec<u8>, state: State, byte: u8) -> Result<State, Wrong> {
    match state {
        State::Plain if byte == b'\\' => Ok(State::Begun),
        State::Plain => push_byte(to, byte),
        State::Begun => push_escaped(to, byte),
        State::Byte => Ok(State::HalfByte(digit_of(byte)?)),
        State::HalfByte(high) => push_byte(to, high << 4 | digit_of(byte)?),
        State::Times(count) if byte == b'}' => repeat_last(to, count),
        State::Times(count) => times_of(count, byte),
    }
}

fn push_byte(to: &mut Vec<u8>, byte: u8) -> Result<State, Wrong> {
    to.push(byte)?;
    Ok(State::Plain)
}

/// Takes the byte behind a backslash.
fn push_escaped(to: &mut Vec<u8>, byte: u8) -> Result<State, Wrong> {
    match byte {
        b'n' => push_byte(to, b'\n'),
        b'r' => push_byte(to, b'\r'),
        b't' => push_byte(to, b'\t'),
        b'\\' => push_byte(to, b'\\'),
        b'x' => Ok(State::Byte),
        b'{' => Ok(State::Times(0)),
        _ => Err(Wrong::Why("there is no such escape")),
    }
}

/// The number of a hexadecimal digit.
fn digit_of(byte: u8) -> Result<u8, Wrong> {
    match (byte as char).to_digit(16) {
        Some(digit) => Ok(digit as u8),
        None => Err(Wrong::Why("no hexadecimal digit")),
    }
}

/// The number whose last digit this byte is.
fn times_of(count: usize, byte: u8) -> Result<State, Wrong> {
    match (byte as char).to_digit(10) {
        Some(digit) => Ok(State::Times(count.saturating_mul(10).saturating_add(digit as usize))),
        None => Err(Wrong::Why("no decimal digit")),
    }
}

/// Has the last byte stand so often.
fn repeat_last(to: &mut Vec<u8>, count: usize) -> Result<State, Wrong> {
    let Some(last) = to.last().copied() else {
        return Err(Wrong::Why("nothing stands before the escape"));
    };
    if count == 0 {
        return Err(Wrong::Why("nothing stands 0 times"));
    }
    for _ in 1..count {
        to.push(last)?;
    }
    Ok(State::Plain)
}
