//! Bytes and links behind their number.
ghost use Rattle.std.specs.Prelude.{◌≡◌, IfOk, length, ◌≤◌, ◌<◌};
ghost use Rattle.dm_packet.specs.Field.{read_times};
ghost use Rattle.dm_packet.specs.Fields.{bytes_within, link, links};
ghost use Rattle.dm_packet.specs.Reads.{ReadsItems, ReadsSlice};

use super::fields::{byte_at, link_at, run_at, u16_at};
use crate::PacketError;
use arrayvec::ArrayVec;
use dm_link::Link;
use dm_message::MOST_LINKS;

/// Links, before it is known where they are kept.
type Links = ArrayVec<Link, MOST_LINKS>;

/// At least so many bytes, at most so many, behind their number.
pub fn bytes_within_at(bytes: &[u8], least: u16, most: u16) -> Result<(&[u8], &[u8]), PacketError>
    ensures read { ReadsSlice result ((bytes_within least most).read bytes.now) }
    ensures few { IfOk result (λ x. length x.0.now ≤ most) }
{
    let (len, rest) = u16_at(bytes)?;
    if len < least || len > most {
        return Err(PacketError::Limit);
    }
    run_at(rest, len as usize)
}

/// So many links.
fn link_run_at(bytes: &[u8], count: u8) -> Result<(Links, &[u8]), PacketError>
    requires { count ≤ MOST_LINKS }
    ensures read { ReadsItems result (read_times link.read count bytes.now) }
    ensures count { IfOk result (λ x. length x.0.items ≡ count) }
{
    let mut links = Links::new();
    let mut rest = bytes;
    for _ in 0..count {
        let (link, after) = link_at(rest)?;
        links.push(link);
        rest = after;
    }
    Ok((links, rest))
}

/// At most so many links, behind their number.
pub fn links_at(bytes: &[u8], most: u8) -> Result<(Links, &[u8]), PacketError>
    requires { most ≤ MOST_LINKS }
    ensures read { ReadsItems result ((links most).read bytes.now) }
    ensures few { IfOk result (λ x. length x.0.items ≤ most) }
{
    let (count, rest) = byte_at(bytes)?;
    if count > most {
        return Err(PacketError::Limit);
    }
    link_run_at(rest, count)
}
