//! A talk over a WebSocket.
ghost use Rattle.std.specs.Prelude.{◌≡◌, ◌≤◌, OnOk, OnErr, Err};
ghost use Rattle.m2m_io.specs.Counts.{CountsFault, Rose};
ghost use Rattle.ws_binding.specs.Talker.{CountsTalkFault};
ghost use Rattle.ws_binding.specs.declared.talker.TalkFault.TheVariants.{Failed as failed};

use crate::stream::ConnStream;
use crate::subprotocol::PickSubprotocol;
use crate::talk::TalkEnded;
use crate::talker::{Got, TalkFault, Talker};
use m2m_io::{Sink, Source};
use m2m_names::Rsc;
use m2m_value::Text;
use service_observer::ReplyObserver;
use std::alloc::Global;
use std::io::{Read, Write};
use std::str;
use tungstenite::handshake::HandshakeRole;
use tungstenite::handshake::server::start;
use tungstenite::{
    CloseCode, CloseFrame, Error, HandshakeError, Message, NoMask, Role, Utf8Bytes, WebSocket,
    WebSocketConfig,
};
use websocket::error::ProtocolError;

/// The longest message, in bytes.
const LONGEST_MESSAGE: usize = 65_536;

/// So many control messages may come before one payload.
const MOST_CONTROLS: usize = 1_000;

/// How many bytes one read asks for.
const ONE_READ: usize = 4_096;

/// How far the talk has come.
#[derive(Clone, Copy, Debug, PartialEq, Eq)]
enum Stage {
    Fresh,
    Open,
    Over,
}

/// What one message of the socket is.
#[derive(Drop)]
enum Heard {
    Got(Got),
    Control,
}

/// A talker over a connection, by WebSocket (RFC 6455). The first `receive` makes the handshake, and
/// what comes behind a fault fails too. It tells neither the payloads to come nor those said: clauses
/// say nothing of what a WebSocket carries.
pub struct WsTalker<'a, X> {
    alloc: Global,
    /// The handshake is made on a loan of its stream.
    socket: WebSocket<ConnStream<'a, X>, NoMask>,
    stage: Stage,
    is_text: bool,
    faults: u64,
}

impl<X> Drop for WsTalker<'_, X> {
    fn drop(self) {
        let WsTalker {
            alloc: _,
            socket,
            stage: _,
            is_text: _,
            faults: _,
        } = self;
        socket.into_inner().leave();
    }
}

impl<'a, X: Source + Sink + ReplyObserver> WsTalker<'a, X> {
    /// A talker over a connection whose handshake is still to be made. Takes no memory.
    pub fn new(alloc: Global, conn: &'a mut X) -> Self
        ensures faults { ⟦<WsTalker<'a, X> as Talker>⟧.faults result ≡ 0 }
    {
        let stream = ConnStream::new(conn);
        WsTalker {
            alloc,
            socket: WebSocket::from_raw_socket(alloc, stream, NoMask, Role::Server, Some(config())),
            stage: Stage::Fresh,
            is_text: false,
            faults: 0,
        }
    }

    /// Makes the handshake, where none was made yet.
    fn open(&mut self) -> Result<(), Error>
        ensures { self.new.faults ≡ self.old.faults }
    {
        if self.stage == Stage::Fresh {
            self.stage = Stage::Over;
            if let Err(error) = shake(self.alloc, self.socket.get_mut()) {
                if self.socket.get_ref().is_ended() {
                    return Ok(());
                }
                if is_of_request(&error) {
                    refuse(self.socket.get_mut())?;
                }
                return Err(error);
            }
            self.stage = Stage::Open;
        }
        Ok(())
    }

    /// What the next message is.
    fn hear(&mut self) -> Result<Heard, Error>
        ensures { self.new.faults ≡ self.old.faults }
    {
        match self.socket.read() {
            Ok(Message::Text(text)) => {
                self.is_text = true;
                payload_of(self.alloc, text.as_str().as_bytes())
            }
            Ok(Message::Binary(bytes)) => {
                self.is_text = false;
                payload_of(self.alloc, bytes.as_slice())
            }
            Ok(Message::Ping(_)) | Ok(Message::Pong(_)) => Ok(Heard::Control),
            Ok(Message::Close(_)) => {
                self.stage = Stage::Over;
                self.socket.flush()?;
                Ok(Heard::Got(Got::End))
            }
            Err(error) => {
                if self.socket.get_ref().is_ended() && is_of_end(&error) {
                    self.stage = Stage::Over;
                    Ok(Heard::Got(Got::End))
                } else {
                    Err(error)
                }
            }
        }
    }

    fn receive_any(&mut self) -> Result<Got, Error>
        ensures { self.new.faults ≡ self.old.faults }
    {
        self.open()?;
        for _ in 0..=MOST_CONTROLS {
            if self.stage != Stage::Open {
                return Ok(Got::End);
            }
            if let Heard::Got(got) = self.hear()? {
                return Ok(got);
            }
        }
        Err(Error::AttackAttempt)
    }

    fn say_any(&mut self, payload: &[u8]) -> Result<(), Error>
        ensures { self.new.faults ≡ self.old.faults }
    {
        if self.stage != Stage::Open {
            return Err(Error::AlreadyClosed);
        }
        let message = message_of(self.alloc, self.is_text, payload)?;
        self.socket.send(message)
    }

    /// Says that nothing more is said, and why, where the talk goes on. What the peer still says is
    /// not read.
    pub(crate) fn close(&mut self, ended: TalkEnded) -> Result<(), TalkFault>
        ensures { CountsFault failed result self.old.faults self.new.faults }
    {
        if self.stage != Stage::Open {
            return Ok(());
        }
        self.stage = Stage::Over;
        match self.socket.close(Some(closing(code_at(ended)))) {
            Ok(()) => Ok(()),
            Err(error) => Err(self.count(error)),
        }
    }

    /// Tells the peer why the talk is broken off, where it can still be told.
    fn break_off(&mut self, error: &Error)
        ensures { self.new.faults ≡ self.old.faults }
    {
        if self.stage == Stage::Open
            && let Some(code) = code_of(error)
        {
            let _told = self.socket.close(Some(closing(code)));
        }
    }

    /// The fault of this error, which is counted but for want of memory.
    fn count(&mut self, error: Error) -> TalkFault
        ensures { CountsTalkFault result self.old.faults self.new.faults }
    {
        match error {
            Error::OutOfMemory | Error::Refused(_) => TalkFault::OutOfMemory,
            _ => {
                self.stage = Stage::Over;
                self.faults = self.faults.saturating_add(1);
                TalkFault::Failed
            }
        }
    }
}

/// What a peer is told of this error.
fn code_of(error: &Error) -> Option<CloseCode> {
    match error {
        Error::Capacity(_) => Some(CloseCode::Size),
        Error::Utf8 => Some(CloseCode::Invalid),
        Error::Protocol(_) => Some(CloseCode::Protocol),
        Error::AttackAttempt => Some(CloseCode::Policy),
        _ => None,
    }
}

/// What a peer is told where a talk that goes on is ended so (RFC 6455, 7.4.1).
fn code_at(ended: TalkEnded) -> CloseCode {
    match ended {
        TalkEnded::Memory => CloseCode::Error,
        TalkEnded::Closed | TalkEnded::Failed => CloseCode::Normal,
    }
}

fn closing(code: CloseCode) -> CloseFrame {
    CloseFrame {
        code,
        reason: Utf8Bytes::from_static(""),
    }
}

/// Whether a stream that ended gives this error.
fn is_of_end(error: &Error) -> bool {
    matches!(
        error,
        Error::Protocol(ProtocolError::ResetWithoutClosingHandshake) | Error::ConnectionClosed
    )
}

fn config() -> WebSocketConfig {
    WebSocketConfig::default()
        .read_buffer_size(ONE_READ)
        .max_message_size(Some(LONGEST_MESSAGE))
        .max_frame_size(Some(LONGEST_MESSAGE))
}

/// What is said to a client whose request asks for no WebSocket (RFC 9110, 15.5.22; RFC 6455, 4.4).
const REFUSAL: &[u8] = b"HTTP/1.1 426 Upgrade Required\r\nUpgrade: websocket\r\n\
    Connection: Upgrade, close\r\nSec-WebSocket-Version: 13\r\nContent-Length: 0\r\n\r\n";

/// Whether a handshake fails so at what the client asked.
fn is_of_request(error: &Error) -> bool {
    matches!(
        error,
        Error::Handshake(_) | Error::JunkAfterRequest | Error::Url | Error::AttackAttempt
    )
}

fn refuse<S: Write>(stream: &mut S) -> Result<(), Error> {
    stream.write_all(REFUSAL)?;
    Ok(())
}

/// Makes the handshake on a stream.
fn shake<S: Read + Write>(alloc: Global, stream: &mut S) -> Result<(), Error> {
    match start(alloc, &mut *stream, PickSubprotocol::new(alloc), None).handshake() {
        Ok(_) => Ok(()),
        Err(fault) => Err(error_of(fault)),
    }
}

/// The error of a handshake. No stream of a connection blocks, so that none is interrupted.
fn error_of<R: HandshakeRole + Drop>(fault: HandshakeError<R>) -> Error {
    match fault {
        HandshakeError::Failure(error) => error,
        HandshakeError::Interrupted(_) => Error::HandshakeIncomplete,
    }
}

fn payload_of(alloc: Global, bytes: &[u8]) -> Result<Heard, Error> {
    Ok(Heard::Got(Got::Payload(Text::from_slice(alloc, bytes)?)))
}

/// A text where it can be one and the last payload was one, else a binary message.
fn message_of(alloc: Global, is_text: bool, payload: &[u8]) -> Result<Message, Error> {
    if is_text {
        if let Ok(text) = str::from_utf8(payload) {
            return Ok(Message::text(alloc, text)?);
        }
    }
    Ok(Message::binary(alloc, payload)?)
}

impl<X: Source + Sink + ReplyObserver> Talker for WsTalker<'_, X> {
    ghost use Rattle.std.specs.Prelude.{None};

    ghost to_come = { λ _. None };

    ghost said = { λ _. None };

    ghost faults = { λ t. t.faults };

    fn receive(&mut self) -> Result<Got, TalkFault> {
        match self.receive_any() {
            Ok(got) => Ok(got),
            Err(error) => {
                self.break_off(&error);
                Err(self.count(error))
            }
        }
    }

    fn say(&mut self, payload: &[u8]) -> Result<(), TalkFault> {
        match self.say_any(payload) {
            Ok(()) => Ok(()),
            Err(error) => Err(self.count(error)),
        }
    }

    fn answered(&self, payload: &[u8], rsc: Rsc) {
        self.socket.get_ref().conn().answered(payload, rsc);
    }
}
