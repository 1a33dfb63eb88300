//! Requests to the switchboard.
ghost use Rattle.std.specs.Prelude.{◌≡◌, IfSome};
ghost use Rattle.dm_switchboard.specs.Board.{listed};
ghost use Rattle.dm_switchboard.specs.Deciding.{IsFree, decided};
ghost use Rattle.dm_switchboard.specs.Operations.{operation_of};
ghost use Rattle.dm_switchboard.specs.Taking.{asks};

use crate::Reply;
use crate::names::{Decision, Names, answered, look_up, name_of, register};
use dm_link::Link;

/// What a request asks for.
#[derive(Clone, Copy)]
enum Operation {
    Register,
    LookUp,
}

impl Operation {
    /// The operation that the first byte of a request's body, before the name, asks for.
    fn from_byte(byte: u8) -> Option<Operation>
        ensures { result ≡ operation_of byte }
    {
        match byte {
            1 => Some(Operation::Register),
            2 => Some(Operation::LookUp),
            _ => None,
        }
    }
}

/// What the request of a body comes to, with the links behind the one for the answer.
pub fn ask(names: &Names, body: &[u8], others: &[Link]) -> Decision
    ensures exact { asks (listed names.now.entries) body.now others.now ≡ decided (listed names.now.entries) result }
    ensures free { IfSome result.new (IsFree (listed names.now.entries)) }
{
    let [operation, bytes @ ..] = body else {
        return answered(Reply::BadRequest);
    };
    let Some(name) = name_of(bytes) else {
        return answered(Reply::BadRequest);
    };
    match (Operation::from_byte(*operation), others) {
        (Some(Operation::Register), [link]) => register(names, name, *link),
        (Some(Operation::LookUp), []) => answered(look_up(names, &name)),
        _ => answered(Reply::BadRequest),
    }
}
