//! What a machine that sends a message on tells its sender.
ghost use Rattle.std.specs.Prelude.{◌≡◌, ◌↔◌, IfSome, IsSome, IsTrue};
ghost use Rattle.dm_message.specs.Kinds.{kind_of};
ghost use Rattle.dm_message.specs.Lawful.{IsLawfulMessage};
ghost use Rattle.dm_link.specs.Lawful.{IsMachine};
ghost use Rattle.dm_linkupdate.specs.Notice.{is_told_back as kind_is_told_back, update_of, IsOwn};

use dm_link::Addr;
use dm_message::{Message, MessageKind, MsgId, What};

/// Whether the sender of a message of this kind is told where it was sent on to.
pub fn is_told_back(kind: MessageKind) -> bool
    ensures { result ≡ kind_is_told_back kind }
{
    match kind {
        MessageKind::User
        | MessageKind::Stop
        | MessageKind::Resume
        | MessageKind::Kill
        | MessageKind::Read
        | MessageKind::Write
        | MessageKind::Migrate
        | MessageKind::Move => true,
        MessageKind::Block
        | MessageKind::Written
        | MessageKind::Gone
        | MessageKind::Create
        | MessageKind::Created
        | MessageKind::NoRoom
        | MessageKind::Update
        | MessageKind::Ask
        | MessageKind::Refuse
        | MessageKind::PullState
        | MessageKind::State
        | MessageKind::PullBlock
        | MessageKind::Memory
        | MessageKind::AllTaken
        | MessageKind::Restart
        | MessageKind::Moved
        | MessageKind::CallOff
        | MessageKind::Bury => false,
    }
}

/// The update that the kernel of machine `here` sends under the name `id` where it sends the message on to machine
/// `new_at`, the receiver's place after `new_moves` moves; machines are 0 to 15. There is one for some kinds alone.
pub fn notice(message: &Message, id: MsgId, here: u8, new_at: u8, new_moves: u32) -> Option<Message>
    ensures kinds { IsSome result ↔ IsTrue (kind_is_told_back (kind_of message.now.what)) }
    ensures update { IfSome result (λ m. m ≡ update_of message.now id here new_at new_moves) }
    ensures lawful { IsLawfulMessage message.now → IsOwn here id → IsMachine here → IsMachine new_at → IfSome result IsLawfulMessage }
{
    if !is_told_back(message.what.kind()) {
        return None;
    }
    Some(Message {
        id,
        to: message.sender,
        sender: Addr::of_kernel(here),
        what: What::Update {
            about: Addr {
                pid: message.to.pid,
                at: new_at,
                moves: new_moves,
            },
        },
    })
}
