//! A handshake, of which clauses know what ended it and how often it paused.
//!
//! Nothing but these bodies makes an [`HandshakeRefusal`], or counts a pause.
ghost use Rattle.std.specs.Prelude.{◌≡◌, None, Some, IfOk, IfErr};
ghost use Rattle.websocket_front.specs.Faults.{greet_fault_of};
ghost use Rattle.websocket_front.specs.Greetings.{Comes, IsEnded};

use crate::front::limits;
use crate::greeting::{GreetFault, Greeted, fault_of, front_of};
use crate::handshake_stream::HandshakeStream;
use crate::subprotocol::Chooser;
use snapshots::{GhostChange, Snapshot, apply};
use std::alloc::Global;
use std::io::{Read, Write};
use std::marker::Model;
use tungstenite::handshake::server::start;
use tungstenite::{Error, HandshakeError, MidHandshake, ServerHandshake};

// One pause more.
struct Pauses;

impl GhostChange<u64, ()> for Pauses {
    ghost use Rattle.std.specs.Prelude.{◌+◌};

    ghost changed = { λ n s. n + 1 };
}

/// Why a handshake came to nothing. The error that ended it, and how often it had paused, exist for clauses alone.
#[derive(Drop)]
pub struct HandshakeRefusal {
    fault: GreetFault,
    error: Snapshot<Option<Error>>,
    pauses: Snapshot<u64>,
}

impl Model for HandshakeRefusal {
    ghost use Rattle.websocket_front.specs.Greetings.{Failing};

    ghost Value = { Failing };

    ghost view = { λ a. record {
      fault = a.fault;
      error = a.error.value;
      pauses = a.pauses.value;
    } };
}

impl HandshakeRefusal {
    /// An error ended the handshake.
    fn by(error: Error, pauses: Snapshot<u64>) -> HandshakeRefusal
        ensures fault { result.fault ≡ greet_fault_of error }
        ensures error { result.error ≡ Some error }
    {
        let fault = fault_of(&error);
        let ended = Some(error);
        HandshakeRefusal {
            fault,
            error: Snapshot::of(&ended),
            pauses,
        }
    }

    /// The fault.
    pub fn fault(&self) -> GreetFault
        ensures { result ≡ self.now.fault }
    {
        self.fault
    }
}

/// A handshake that isn't done. How often it paused, since its stream had or took nothing, exists for clauses alone.
#[derive(Drop)]
pub struct Handshake<S: Read + Write + Drop> {
    alloc: Global,
    handshake: MidHandshake<ServerHandshake<HandshakeStream<S>, Chooser>>,
    pauses: Snapshot<u64>,
}

impl<S: Read + Write + Drop> Model for Handshake<S> {
    ghost use Rattle.std.specs.Prelude.{ℕ};

    ghost Value = { ℕ };

    ghost view = { λ a. a.pauses.value };
}

impl<S: Read + Write + Drop> Handshake<S> {
    /// A handshake on a stream of which nothing was read. It takes no memory yet.
    pub fn new(alloc: Global, stream: S) -> Handshake<S>
        ensures { result ≡ 0 }
    {
        let heard = HandshakeStream::new(alloc, stream);
        Handshake {
            alloc,
            handshake: start(alloc, heard, Chooser::new(alloc), Some(limits())),
            pauses: Snapshot::of(&0),
        }
    }

    /// The stream.
    pub fn stream(&self) -> &S {
        &self.handshake.get_ref().stream
    }

    /// Reads and writes until the handshake is done or the stream would block.
    pub fn go_on(self) -> Result<Greeted<S>, HandshakeRefusal>
        ensures comes { IfOk result (Comes self) }
        ensures cause { IfErr result IsEnded }
    {
        let Handshake {
            alloc,
            handshake,
            mut pauses,
        } = self;
        match handshake.handshake() {
            Ok(socket) => match front_of(alloc, socket.into_inner()) {
                Ok(front) => Ok(Greeted::Done(front)),
                Err(error) => Err(HandshakeRefusal::by(error, pauses)),
            },
            Err(HandshakeError::Interrupted(handshake)) => {
                apply::<Pauses, u64, ()>(&mut pauses, &());
                Ok(Greeted::Later(Handshake {
                    alloc,
                    handshake,
                    pauses,
                }))
            }
            Err(HandshakeError::Failure(error)) => Err(HandshakeRefusal::by(error, pauses)),
        }
    }

    /// The handshake paused too often, which is a fault of the stream.
    pub(crate) fn give_up(self) -> HandshakeRefusal
        ensures fault { result.fault ≡ GreetFault.Io }
        ensures error { result.error ≡ None }
        ensures pauses { result.pauses ≡ self }
    {
        HandshakeRefusal {
            fault: GreetFault::Io,
            error: Snapshot::of(&None),
            pauses: self.pauses,
        }
    }
}
