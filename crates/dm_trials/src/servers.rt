//! The bytes of the two servers, as one machine would hand them to another: what is unpacked, that it is packed to the same bytes, and
//! which rule bytes break that are one byte off.

ghost use Rattle.dm_switchboard.specs.Lawful.{IsLawfulBoard};
ghost use Rattle.dm_procman.specs.Lawful.{IsLawfulManager};

use dm_memory::NoMemory;
use dm_procman::ProcMan;
use dm_switchboard::{ServerError, Switchboard};
use std::io;

/// A switchboard that has sent 5 messages and moved once. It knows 'db', a link to 0.3, and 'dc', a link to 1.4, which is on machine 2
/// after one move, with an area of 256 bytes that may be read.
const BOARD: [u8; 72] = [
    4, 0, 0, 0, 0, 1, 0, 0, 0, 5, 0, 0, 0, 1, 0, 0, 0, 2, 2, 100, 98, 0, 0, 0, 0, 3, 0, 0, 0, 0, 0,
    0, 0, 0, 0, 7, 1, 0, 0, 0, 0, 0, 0, 0, 0, 2, 100, 99, 1, 0, 0, 0, 4, 2, 0, 0, 0, 1, 4, 0, 0, 0,
    0, 31, 0, 0, 0, 16, 0, 0, 1, 0,
];

/// A manager that has sent 7 messages and moved 3 times. Its children are 0.3, and 1.3, which is on machine 0 after two moves; the
/// switchboard is on machine 1 after one move. Request 4, to make a process, has a reply link to 0.3 for its answer, and request 6, to
/// move a child, has none.
const MANAGER: [u8; 88] = [
    4, 0, 0, 0, 0, 2, 0, 0, 0, 7, 0, 0, 0, 3, 0, 0, 0, 2, 0, 0, 0, 0, 3, 0, 0, 0, 0, 0, 1, 0, 0, 0,
    3, 0, 0, 0, 0, 2, 0, 0, 0, 0, 1, 1, 0, 0, 0, 1, 0, 0, 0, 2, 0, 0, 0, 4, 0, 1, 0, 0, 0, 0, 3, 0,
    0, 0, 0, 0, 1, 0, 0, 0, 9, 3, 0, 0, 0, 0, 0, 0, 0, 0, 0, 0, 0, 6, 1, 0,
];

/// Another byte at a place of the switchboard's bytes: the version, the name's machine and number, how many names there are, the length
/// of one, the flags and the channel of a link, and a name that stands twice.
const BOARD_SLIPS: [(usize, u8); 9] = [
    (0, 3),
    (1, 16),
    (5, 2),
    (17, 1),
    (17, 3),
    (18, 17),
    (31, 2),
    (36, 32),
    (47, 98),
];

/// Another byte at a place of the manager's bytes: the version, the name, how many children there are, the name of the switchboard and its
/// machine, how many requests there are, what one asks for, and whether it has a link for its answer.
const MANAGER_SLIPS: [(usize, u8); 9] = [
    (0, 3),
    (5, 1),
    (17, 3),
    (42, 2),
    (43, 16),
    (51, 1),
    (51, 3),
    (56, 2),
    (57, 2),
];

/// What the worked manager doesn't say itself: how many machines and images there are.
const MACHINES: u8 = 2;

const IMAGES: u16 = 5;

/// Unpacks both servers, packs them again, and tries the bytes that are one byte off.
pub fn pack_servers(rt: &HostRuntime) -> io::Result<()> {
    pack_board(rt)?;
    pack_manager(rt)
}

/// Unpacks the switchboard and packs it again, and tries bytes that are one off.
fn pack_board(rt: &HostRuntime) -> io::Result<()> {
    say_board(rt)?;
    for (place, byte) in &BOARD_SLIPS {
        say_board_slip(rt, *place, *byte)?;
    }
    Ok(())
}

/// The same of the manager.
fn pack_manager(rt: &HostRuntime) -> io::Result<()> {
    say_manager(rt)?;
    for (place, byte) in &MANAGER_SLIPS {
        say_manager_slip(rt, *place, *byte)?;
    }
    Ok(())
}

/// The worked switchboard.
fn say_board(rt: &HostRuntime) -> io::Result<()> {
    match Switchboard::unpack(rt.alloc(), &BOARD) {
        Ok(board) => say_read_board(rt, &board),
        Err(error) => println!(rt; "switchboard: WRONG, {error}"),
    }
}

/// The switchboard that was read.
fn say_read_board(rt: &HostRuntime, board: &Switchboard) -> io::Result<()>
    requires { IsLawfulBoard board.now }
{
    let (names, sent, moves) = (board.len(), board.sent(), board.moves());
    let same = names <= 2 && are_bytes(board.pack(rt.alloc()), &BOARD);
    println!(rt;
        "switchboard: {names} names, {sent} sent, {moves} moves, packed to the same bytes: {same}"
    )
}

/// The worked manager.
fn say_manager(rt: &HostRuntime) -> io::Result<()> {
    match ProcMan::unpack(rt.alloc(), &MANAGER, MACHINES, IMAGES) {
        Ok(manager) => say_read_manager(rt, &manager),
        Err(error) => println!(rt; "manager: WRONG, {error}"),
    }
}

/// The manager that was read.
fn say_read_manager(rt: &HostRuntime, manager: &ProcMan) -> io::Result<()>
    requires { IsLawfulManager manager.now }
{
    let (children, requests) = (manager.children().len(), manager.waiting());
    let same = children <= 2 && requests <= 2 && are_bytes(manager.pack(rt.alloc()), &MANAGER);
    let (sent, moves) = (manager.sent(), manager.moves());
    println!(rt;
        "manager: {children} children, {requests} requests, {sent} sent, {moves} moves, packed to the same bytes: {same}"
    )
}

/// Whether a server was packed to the worked bytes.
fn are_bytes(packed: Result<Vec<u8>, NoMemory>, worked: &[u8]) -> bool {
    match packed {
        Ok(bytes) => bytes.as_slice() == worked,
        Err(_) => false,
    }
}

/// The worked switchboard's bytes with another at this place.
fn say_board_slip(rt: &HostRuntime, place: usize, byte: u8) -> io::Result<()> {
    let mut bytes = BOARD;
    if let Some(there) = bytes.get_mut(place) {
        *there = byte;
    }
    let refusal = Switchboard::unpack(rt.alloc(), &bytes).err();
    say_slip(rt, "switchboard", place, byte, refusal)
}

/// The worked manager's bytes with another at this place.
fn say_manager_slip(rt: &HostRuntime, place: usize, byte: u8) -> io::Result<()> {
    let mut bytes = MANAGER;
    if let Some(there) = bytes.get_mut(place) {
        *there = byte;
    }
    let refusal = ProcMan::unpack(rt.alloc(), &bytes, MACHINES, IMAGES).err();
    say_slip(rt, "manager", place, byte, refusal)
}

/// Which rule the bytes break.
fn say_slip(
    rt: &HostRuntime,
    server: &str,
    place: usize,
    byte: u8,
    refusal: Option<ServerError>,
) -> io::Result<()> {
    match refusal {
        Some(error) => println!(rt; "{server}, {byte} at {place}: {error}"),
        None => println!(rt; "{server}, {byte} at {place}: WRONG, it is read"),
    }
}
