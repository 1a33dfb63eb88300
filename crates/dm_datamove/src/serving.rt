//! The service of requests where the area is.
ghost use Rattle.std.specs.Prelude.{◌≡◌, ◌<◌, IfOk, OnErr, OnOk, Some, length};
ghost use Rattle.dm_message.specs.Lawful.{IsLawfulMessage, IsLawfulWhat};
ghost use Rattle.dm_message.specs.Plain.{plain_message};
ghost use Rattle.dm_process.specs.Lawful.{IsLawfulProcess};
ghost use Rattle.dm_datamove.specs.Serving.{IsRead, IsRequest, IsWithin, after_serving, answer, answer_of, gone_answer, gone_what, plain_served, plainly_gone, served_plainly, serving_answer};

use crate::body_at;
use dm_link::{Addr, MACHINES};
use dm_memory::NoMemory;
use dm_message::{Message, MsgId, Outcome, What};
use dm_process::Process;
use dm_processor::Cells;
use std::alloc::Global;

/// An answer under the request's name to who asked, from its receiver on machine `here`, so often moved.
pub fn answer(request: &Message, here: u8, moves: u32, what: What) -> Message
    ensures { result ≡ answer here moves request.now what }
{
    Message {
        id: MsgId {
            answer: true,
            ..request.id
        },
        to: request.sender,
        sender: Addr {
            pid: request.to.pid,
            at: here,
            moves,
        },
        what,
    }
}

/// Reads or writes what is asked for; what the answer says.
fn serve_what(alloc: Global, process: &mut Process, what: &What) -> Result<What, NoMemory>
    requires lawful { IsLawfulWhat what.now }
    requires within { IsWithin (length process.old.memory) what.now }
    ensures answer { IfOk result (λ said. answer_of process.old what.now ≡ Some said) }
    ensures process { OnOk result (process.new ≡ after_serving process.old what.now) }
    ensures err { OnErr result (process.new ≡ process.old) }
    ensures read { OnErr result (IsRead what.now) }
{
    match what {
        What::Read { base, len } => {
            let bytes = body_at(alloc, &process.memory, *base, u32::from(*len))?;
            Ok(What::Block { bytes })
        },
        What::Write { base, bytes } => {
            process.memory.copy_in(*base, bytes.as_slice());
            Ok(What::Written)
        },
        // Only these two kinds ask for a piece: `within` says so.
        _ => unreachable!(),
    }
}

/// Serves a request; the answer.
fn serve_request(
    alloc: Global,
    process: &mut Process,
    message: &Message,
    here: u8,
) -> Result<Message, NoMemory>
    requires lawful { IsLawfulWhat message.now.what }
    requires within { IsWithin (length process.old.memory) message.now.what }
    ensures answer { IfOk result (λ said. serving_answer here process.old message.now ≡ Some said) }
    ensures process { OnOk result (process.new ≡ after_serving process.old message.now.what) }
    ensures err { OnErr result (process.new ≡ process.old) }
    ensures read { OnErr result (IsRead message.now.what) }
{
    let what = serve_what(alloc, process, &message.what)?;
    Ok(answer(message, here, process.moves, what))
}

/// Serves a request for a piece that lies within the memory of its receiver, on machine `here`; a stopped process is
/// served too. Only the bytes that are read take memory; where it lacks, nothing has changed.
pub fn serve(
    alloc: Global,
    process: &mut Process,
    message: &Message,
    here: u8,
) -> Result<Message, NoMemory>
    requires lawful { IsLawfulProcess process.old }
    requires lawful_request { IsLawfulMessage message.now }
    requires here { here < MACHINES }
    requires within { IsWithin (length process.old.memory) message.now.what }
    ensures answer { IfOk result (λ said. serving_answer here process.old message.now ≡ Some said) }
    ensures process { OnOk result (process.new ≡ after_serving process.old message.now.what) }
    ensures err { OnErr result (process.new ≡ process.old) }
    ensures read { OnErr result (IsRead message.now.what) }
    ensures plain { IfOk result (λ said. plain_served process.new (plain_message said) ≡ served_plainly process.old (plain_message message.now)) }
    ensures lawful { OnOk result (IsLawfulProcess process.new) }
    ensures lawful_answer { IfOk result IsLawfulMessage }
{
    let answer = serve_request(alloc, process, message, here)?;
    Ok(answer)
}

/// What is answered to a request whose receiver has ended.
fn gone_what(request: &What) -> What
    ensures { result ≡ gone_what request.now }
{
    match request {
        What::Move { .. } => What::Moved {
            outcome: Outcome::Ended,
        },
        _ => What::Gone,
    }
}

/// The answer to a request for a piece, or to one that its receiver move, where the receiver has ended, on machine `here`.
pub fn gone(message: &Message, here: u8) -> Message
    requires lawful { IsLawfulMessage message.now }
    requires here { here < MACHINES }
    requires request { IsRequest message.now.what }
    ensures answer { result ≡ gone_answer here message.now }
    ensures plain { plain_message result ≡ plainly_gone (plain_message message.now) }
    ensures lawful { IsLawfulMessage result }
{
    answer(message, here, message.to.moves, gone_what(&message.what))
}
