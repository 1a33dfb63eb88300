//! Equal messages.
ghost use Rattle.std.specs.Prelude.{◌≡◌, IfOk};

use crate::{Message, What};
use dm_memory::{NoMemory, Parcel};
use std::alloc::Global;

impl What {
    /// The same.
    pub fn copied(&self, alloc: Global) -> Result<What, NoMemory>
        ensures { IfOk result (λ what. what ≡ self.now) }
    {
        let what = match self {
            What::User {
                code,
                channel,
                body,
                links,
            } => What::User {
                code: *code,
                channel: *channel,
                body: body.copied(alloc)?,
                links: links.copied(alloc)?,
            },
            What::Write { base, bytes } => What::Write {
                base: *base,
                bytes: bytes.copied(alloc)?,
            },
            What::Block { bytes } => What::Block {
                bytes: bytes.copied(alloc)?,
            },
            What::Create { image, links } => What::Create {
                image: *image,
                links: links.copied(alloc)?,
            },
            What::State {
                pid,
                chunk,
                last,
                bytes,
            } => What::State {
                pid: *pid,
                chunk: *chunk,
                last: *last,
                bytes: bytes.copied(alloc)?,
            },
            What::Memory { pid, block, bytes } => What::Memory {
                pid: *pid,
                block: *block,
                bytes: Parcel::new(alloc, *bytes.get())?,
            },
            What::Ask {
                pid,
                blocks,
                moves,
                size,
                asker,
            } => What::Ask {
                pid: *pid,
                blocks: *blocks,
                moves: *moves,
                size: *size,
                asker: *asker,
            },
            What::Refuse {
                pid,
                free_slots,
                free_blocks,
            } => What::Refuse {
                pid: *pid,
                free_slots: *free_slots,
                free_blocks: *free_blocks,
            },
            What::Read { base, len } => What::Read {
                base: *base,
                len: *len,
            },
            What::PullState { pid, chunk } => What::PullState {
                pid: *pid,
                chunk: *chunk,
            },
            What::PullBlock { pid, block } => What::PullBlock {
                pid: *pid,
                block: *block,
            },
            What::Created { pid } => What::Created { pid: *pid },
            What::AllTaken { pid } => What::AllTaken { pid: *pid },
            What::Restart { pid } => What::Restart { pid: *pid },
            What::CallOff { pid } => What::CallOff { pid: *pid },
            What::Bury { pid } => What::Bury { pid: *pid },
            What::Update { about } => What::Update { about: *about },
            What::Migrate { machine } => What::Migrate { machine: *machine },
            What::Move { machine } => What::Move { machine: *machine },
            What::Moved { outcome } => What::Moved { outcome: *outcome },
            What::Stop => What::Stop,
            What::Resume => What::Resume,
            What::Kill => What::Kill,
            What::Written => What::Written,
            What::Gone => What::Gone,
            What::NoRoom => What::NoRoom,
        };
        Ok(what)
    }
}

impl Message {
    /// The same.
    pub fn copied(&self, alloc: Global) -> Result<Message, NoMemory>
        ensures { IfOk result (λ message. message ≡ self.now) }
    {
        Ok(Message {
            id: self.id,
            to: self.to,
            sender: self.sender,
            what: self.what.copied(alloc)?,
        })
    }
}
