//! The calls that may lack memory, each at a size: more than 65,536 values in a list, as many keys in a map, as many zeros or places as
//! one may ask for. Whether a call lacks memory depends on the allocator alone, so here none does.

use dm_memory::of_args::{ArgsError, args, collect};
use dm_memory::of_circular_buffer::ring;
use dm_memory::{
    NoMemory, Parcel, append_zeros, extend_from_slice, from_slice, insert, insert_or_return,
    list_of, of_indexmap, push, push_back, push_back_or_return, push_front, push_or_return,
    repeated, reserve_for, room_for, room_for_all, room_for_both, with_room, with_room_for,
    with_room_for_bytes, zeros,
};
use indexmap::IndexMap;
use std::alloc::Global;
use std::collections::{BTreeMap, VecDeque};
use std::io;

/// More values than two bytes can count.
const MANY: u32 = 70_000;

/// As many zeros as one may ask for at once.
const MOST_ZEROS: u32 = 65_536;

/// As many of the same value, as much room, and as many places of a ring, as one may ask for at once by a number.
const MOST: usize = 256;

/// More room than bytes of the program are given at once.
const ROOM: u32 = 1_048_576;

/// Makes each call at its size, and says how many values came of it.
pub fn take_memory(rt: &HostRuntime) -> io::Result<()> {
    for (call, taken) in &taken(rt.alloc()) {
        say_taken(rt, call, *taken)?;
    }
    say_taken(rt, "of_args::collect", collected(rt))
}

/// What came of each call.
fn taken(alloc: Global) -> [(&'static str, Result<usize, NoMemory>); 24] {
    [
        ("push", pushed(alloc)),
        ("push_or_return", pushed_or_returned(alloc)),
        ("reserve_for", reserved(alloc)),
        ("room_for", roomy_for_more(alloc)),
        ("extend_from_slice", extended(alloc)),
        ("append_zeros", zeros_appended(alloc)),
        ("with_room", roomy(alloc)),
        ("with_room_for", roomy_for_values(alloc)),
        ("with_room_for_bytes", roomy_for_bytes(alloc)),
        ("from_slice", copied(alloc)),
        ("zeros", zeroed(alloc)),
        ("repeated", same(alloc)),
        ("list_of", listed(alloc)),
        ("push_back", pushed_back(alloc)),
        ("push_back_or_return", pushed_back_or_returned(alloc)),
        ("push_front", pushed_front(alloc)),
        ("room_for_both", roomy_for_both(alloc)),
        ("room_for_all", roomy_for_all(alloc)),
        ("insert", inserted(alloc)),
        ("insert_or_return", inserted_or_returned(alloc)),
        ("of_indexmap::insert", inserted_last(alloc)),
        ("of_circular_buffer::ring", ringed(alloc)),
        ("Parcel::new", packed(alloc)),
        ("Parcel::new_or_return", packed_or_returned(alloc)),
    ]
}

/// Says how many values came of a call, or that memory lacked.
fn say_taken(rt: &HostRuntime, call: &str, taken: Result<usize, NoMemory>) -> io::Result<()> {
    match taken {
        Ok(count) => println!(rt; "memory, {call}: {count}"),
        Err(no) => println!(rt; "memory, {call}: WRONG, {no}"),
    }
}

/// Many values, added at the end of a list.
fn pushed(alloc: Global) -> Result<usize, NoMemory> {
    let mut list = Vec::new(alloc);
    for number in 0..MANY {
        push(&mut list, number)?;
    }
    Ok(list.len())
}

/// The same, by the call that hands back.
fn pushed_or_returned(alloc: Global) -> Result<usize, NoMemory> {
    let mut list = Vec::new(alloc);
    for number in 0..MANY {
        if let Err((_, no)) = push_or_return(&mut list, number) {
            return Err(no);
        }
    }
    Ok(list.len())
}

/// A list with room for one value more, and that value.
fn reserved(alloc: Global) -> Result<usize, NoMemory> {
    let mut list = zeros(alloc, MOST_ZEROS)?;
    reserve_for(&mut list, &0)?;
    list.push_reserved(0);
    Ok(list.len())
}

/// The room of a list with room for as many values as it has, and with a quarter more.
fn roomy_for_more(alloc: Global) -> Result<usize, NoMemory> {
    let more = zeros(alloc, MOST_ZEROS)?;
    let mut list = zeros(alloc, MOST_ZEROS)?;
    room_for(&mut list, more.as_slice(), 0)?;
    Ok(list.capacity())
}

/// Bytes, added at the end of as many.
fn extended(alloc: Global) -> Result<usize, NoMemory> {
    let more = zeros(alloc, MOST_ZEROS)?;
    let mut list = zeros(alloc, MOST_ZEROS)?;
    extend_from_slice(&mut list, more.as_slice())?;
    Ok(list.len())
}

/// Zeros, added at the end of as many.
fn zeros_appended(alloc: Global) -> Result<usize, NoMemory> {
    let mut list = zeros(alloc, MOST_ZEROS)?;
    append_zeros(&mut list, MOST_ZEROS)?;
    Ok(list.len())
}

/// The room of an empty list.
fn roomy(alloc: Global) -> Result<usize, NoMemory> {
    let list: Vec<u64> = with_room(alloc, MOST)?;
    Ok(list.capacity())
}

/// The room of an empty list for as many values as there are.
fn roomy_for_values(alloc: Global) -> Result<usize, NoMemory> {
    let values = zeros(alloc, MOST_ZEROS)?;
    let list = with_room_for(alloc, values.as_slice())?;
    Ok(list.capacity())
}

/// The room of no bytes.
fn roomy_for_bytes(alloc: Global) -> Result<usize, NoMemory> {
    let list = with_room_for_bytes(alloc, ROOM)?;
    Ok(list.capacity())
}

/// The bytes of a slice.
fn copied(alloc: Global) -> Result<usize, NoMemory> {
    let bytes = zeros(alloc, MOST_ZEROS)?;
    let list = from_slice(alloc, bytes.as_slice())?;
    Ok(list.len())
}

/// Zeros.
fn zeroed(alloc: Global) -> Result<usize, NoMemory> {
    let list = zeros(alloc, MOST_ZEROS)?;
    Ok(list.len())
}

/// A value again and again.
fn same(alloc: Global) -> Result<usize, NoMemory> {
    let list = repeated(alloc, 7u64, MOST)?;
    Ok(list.len())
}

/// As many values as one may hand over at once.
fn listed(alloc: Global) -> Result<usize, NoMemory> {
    let list = list_of(alloc, [7u64; 16])?;
    Ok(list.len())
}

/// Many values, added at the back of a list.
fn pushed_back(alloc: Global) -> Result<usize, NoMemory> {
    let mut list = VecDeque::new(alloc);
    for number in 0..MANY {
        push_back(&mut list, number)?;
    }
    Ok(list.len())
}

/// The same, by the call that hands back.
fn pushed_back_or_returned(alloc: Global) -> Result<usize, NoMemory> {
    let mut list = VecDeque::new(alloc);
    for number in 0..MANY {
        if let Err((_, no)) = push_back_or_return(&mut list, number) {
            return Err(no);
        }
    }
    Ok(list.len())
}

/// Many values, put before the front of a list.
fn pushed_front(alloc: Global) -> Result<usize, NoMemory> {
    let mut list = VecDeque::new(alloc);
    for number in 0..MANY {
        push_front(&mut list, number)?;
    }
    Ok(list.len())
}

/// The room of a list for two others together.
fn roomy_for_both(alloc: Global) -> Result<usize, NoMemory> {
    let mut front = VecDeque::new(alloc);
    push_back(&mut front, 0u8)?;
    let back = zeros(alloc, MOST_ZEROS)?;
    let list = room_for_both(alloc, &front, &back)?;
    Ok(list.capacity())
}

/// The room of a list for three others together, in two of which the values are on the heap.
fn roomy_for_all(alloc: Global) -> Result<usize, NoMemory> {
    let mut front = VecDeque::new(alloc);
    push_back(&mut front, Parcel::new(alloc, 0u8)?)?;
    let mut middle = VecDeque::new(alloc);
    push_back(&mut middle, Parcel::new(alloc, 0u8)?)?;
    let back = zeros(alloc, MOST_ZEROS)?;
    let list = room_for_all(alloc, &front, &middle, &back)?;
    Ok(list.capacity())
}

/// Many values, each under a key of its own.
fn inserted(alloc: Global) -> Result<usize, NoMemory> {
    let mut map = BTreeMap::new(alloc);
    for number in 0..MANY {
        insert(&mut map, number, number)?;
    }
    Ok(map.len())
}

/// The same, by the call that hands back.
fn inserted_or_returned(alloc: Global) -> Result<usize, NoMemory> {
    let mut map = BTreeMap::new(alloc);
    for number in 0..MANY {
        if let Err((_, no)) = insert_or_return(&mut map, number, number) {
            return Err(no);
        }
    }
    Ok(map.len())
}

/// Many values, each under a key of its own, in the order in which they came.
fn inserted_last(alloc: Global) -> Result<usize, NoMemory> {
    let mut map = IndexMap::new(alloc);
    for number in 0..MANY {
        of_indexmap::insert(&mut map, number, number)?;
    }
    Ok(map.len())
}

/// The places of a ring.
fn ringed(alloc: Global) -> Result<usize, NoMemory> {
    let ring = ring(alloc, MOST, 7u64)?;
    Ok(ring.capacity())
}

/// The words that this program is given: its name alone.
fn collected(rt: &HostRuntime) -> Result<usize, NoMemory> {
    match args(rt) {
        Ok(args) => {
            let words = collect(rt.alloc(), args)?;
            Ok(words.len())
        }
        Err(ArgsError::NoMemory(no)) => Err(no),
        Err(ArgsError::Unread) => Ok(0),
    }
}

/// Many values, each on the heap by itself.
fn packed(alloc: Global) -> Result<usize, NoMemory> {
    let mut list = Vec::new(alloc);
    for number in 0..MANY {
        push(&mut list, Parcel::new(alloc, number)?)?;
    }
    Ok(list.len())
}

/// The same, by the call that hands back.
fn packed_or_returned(alloc: Global) -> Result<usize, NoMemory> {
    let mut list = Vec::new(alloc);
    for number in 0..MANY {
        match Parcel::new_or_return(alloc, number) {
            Ok(parcel) => push(&mut list, parcel)?,
            Err((_, no)) => return Err(no),
        }
    }
    Ok(list.len())
}
