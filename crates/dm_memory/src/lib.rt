//! Want of memory: one type, and the calls that tell it.
#![tactic(auto)]

pub mod deques;
pub mod lists;
pub mod maps;
pub mod of_args;
pub mod of_circular_buffer;
pub mod of_clap;
pub mod of_indexmap;
pub mod of_toml;
pub mod parcel;

pub use deques::{push_back, push_back_or_return, push_front, room_for_all, room_for_both};
pub use lists::{
    append_zeros, extend_from_slice, from_slice, list_of, push, push_or_return, repeated,
    reserve_for, room_for, with_room, with_room_for, with_room_for_bytes, zeros,
};
pub use maps::{insert, insert_or_return};
pub use parcel::Parcel;
use thiserror::Error;

/// No memory was left. Only the calls of this crate make it, each where the allocator refused it memory, and nothing is
/// turned into it: so no other refusal can be told as want of memory.
#[derive(Clone, Copy, Debug, Drop, Error)]
#[error("out of memory")]
pub struct NoMemory(());
