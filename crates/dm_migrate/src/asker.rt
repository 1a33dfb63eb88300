//! Who asked for a move, and what tells them how it ended.
ghost use Rattle.std.specs.Prelude.{◌≡◌};
ghost use Rattle.dm_link.specs.Lawful.{IsLawfulAddr, IsMachine};
ghost use Rattle.dm_message.specs.Lawful.{IsLawfulMessage};
ghost use Rattle.dm_process.specs.Lawful.{IsLawfulProcess};
ghost use Rattle.dm_migrate.specs.Asking.{asker_of, manager_request, moved_answer};

use dm_link::{Addr, MANAGER};
use dm_message::{Asker, Message, MsgId, Outcome, What};
use dm_process::Process;

/// Who sent a request to move, and waits for the answer to it.
pub fn asker_of(request: &Message) -> Asker
    ensures { result ≡ asker_of request.now }
{
    Asker {
        n: request.id.n,
        addr: request.sender,
    }
}

/// The name of the request that somebody waits for the answer to: the process manager's message of that number.
pub fn request_of(asker: Asker) -> MsgId
    ensures { result ≡ manager_request asker }
{
    MsgId {
        from: MANAGER,
        n: asker.n,
        answer: false,
    }
}

/// The answer to who asked for the move of a process, from the process, on machine `here`.
pub fn moved_answer(process: &Process, here: u8, outcome: Outcome, asker: Asker) -> Message
    ensures answer { result ≡ moved_answer here process.now outcome asker }
    ensures lawful { IsMachine here → IsLawfulProcess process.now → IsLawfulAddr asker.addr → IsLawfulMessage result }
{
    Message {
        id: MsgId {
            answer: true,
            ..request_of(asker)
        },
        to: asker.addr,
        sender: Addr {
            pid: process.pid,
            at: here,
            moves: process.moves,
        },
        what: What::Moved { outcome },
    }
}
