//! What errors say of themselves that no run of the table shows.

use dm_boot::{BootError, BootRule};
use dm_packet::PacketError;
use dm_procman::MoveError;
use dm_room::Lacks;
use dm_schedule::{LineFault, ScheduleError};
use dm_statebytes::StateBytesError;
use std::{fmt, io};

const PACKET_ERRORS: [PacketError; 9] = [
    PacketError::Missing,
    PacketError::Version,
    PacketError::PacketKind,
    PacketError::Machine,
    PacketError::MessageKind,
    PacketError::Answer,
    PacketError::Flags,
    PacketError::Limit,
    PacketError::Trailing,
];

const STATE_ERRORS: [StateBytesError; 6] = [
    StateBytesError::Missing,
    StateBytesError::Version,
    StateBytesError::Machine,
    StateBytesError::Flags,
    StateBytesError::Limit,
    StateBytesError::Trailing,
];

const LINE_FAULTS: [LineFault; 5] = [
    LineFault::UnknownWord,
    LineFault::WrongCount,
    LineFault::NotANumber,
    LineFault::OutOfRange,
    LineFault::SameMachine,
];

/// Room that isn't enough.
const LACKS: Lacks = Lacks {
    free_slots: 1,
    free_blocks: 20,
};

/// What errors of packets, of state bytes and of schedules say of themselves.
pub fn say_low_errors(rt: &HostRuntime) -> io::Result<()> {
    say_packet_errors(rt)?;
    say_state_errors(rt)?;
    say_line_faults(rt)
}

/// What an error of a boot file, one of room and one of a move say of themselves.
pub fn say_starting_errors(rt: &HostRuntime) -> io::Result<()> {
    say_boot_error(rt)?;
    say(rt, "room", &LACKS)?;
    say(rt, "move", &MoveError::Unknown)
}

/// An error of a boot file.
fn say_boot_error(rt: &HostRuntime) -> io::Result<()> {
    let rule = BootRule::ProcessRoom;
    let refused = BootError::Refused { rule, place: 2 };
    say_numbered(rt, "boot file", rule.number(), &refused)
}

/// Each error of a packet.
fn say_packet_errors(rt: &HostRuntime) -> io::Result<()> {
    for bad in &PACKET_ERRORS {
        say_numbered(rt, "packet", bad.number(), bad)?;
    }
    Ok(())
}

/// Each error of state bytes.
fn say_state_errors(rt: &HostRuntime) -> io::Result<()> {
    for bad in &STATE_ERRORS {
        say_numbered(rt, "state bytes", bad.number(), bad)?;
    }
    Ok(())
}

/// Each fault of a line of a schedule.
fn say_line_faults(rt: &HostRuntime) -> io::Result<()> {
    for fault in &LINE_FAULTS {
        let refused = ScheduleError::Refused {
            line: 7,
            fault: *fault,
        };
        say_numbered(rt, "schedule", fault.number(), &refused)?;
    }
    Ok(())
}

/// What an error with a number says of itself.
pub fn say_numbered<E: fmt::Display>(
    rt: &HostRuntime,
    of: &str,
    number: u8,
    error: &E,
) -> io::Result<()> {
    println!(rt; "{of}, {number}: {error}")
}

/// What an error says of itself.
fn say<E: fmt::Display>(rt: &HostRuntime, of: &str, error: &E) -> io::Result<()> {
    println!(rt; "{of}: {error}")
}
