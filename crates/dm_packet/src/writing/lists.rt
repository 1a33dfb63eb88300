//! Bytes and links behind their number.
ghost use Rattle.std.specs.Prelude.{◌+◌, ◌≤◌, length};
ghost use Rattle.std.specs.List.{All, flat_map};
ghost use Rattle.dm_packet.specs.Field.{number};
ghost use Rattle.dm_packet.specs.Fields.{bytes_within, link as link_field, links as links_field};
ghost use Rattle.dm_packet.specs.Widths.{FitsLink};
ghost use Rattle.dm_packet.specs.Writes.{HasRoom, Puts};

use super::Buffer;
use super::fields::{put_byte, put_bytes, put_link, put_u16};
use crate::MOST_PACKET;
use dm_link::Link;
use dm_message::{CHUNK, MOST_LINKS};

/// Bytes behind their number.
pub fn put_counted(out: &mut Buffer, bytes: &[u8])
    requires room { HasRoom out.old ((bytes_within 0 CHUNK).spell bytes.now) }
    requires few { length bytes.now ≤ CHUNK }
    ensures put { Puts out.old out.new ((bytes_within 0 CHUNK).spell bytes.now) }
{
    put_u16(out, bytes.len() as u16);
    put_bytes(out, bytes);
}

fn put_link_run(out: &mut Buffer, links: &[Link])
    requires room { HasRoom out.old (flat_map link_field.spell links.now) }
    ensures put { Puts out.old out.new (flat_map link_field.spell links.now) }
    ensures fits { All FitsLink links.now }
{
    for link in links {
        put_link(out, link);
    }
}

/// Links behind their number.
pub fn put_links(out: &mut Buffer, links: &[Link])
    requires room { length out.old.items + 97 ≤ MOST_PACKET }
    requires few { length links.now ≤ MOST_LINKS }
    ensures put { Puts out.old out.new ((links_field MOST_LINKS).spell links.now) }
    ensures fits { All FitsLink links.now }
{
    put_byte(out, links.len() as u8);
    put_link_run(out, links);
}
