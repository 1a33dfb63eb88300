//! One writer for each kind of field, which puts it at the end.
ghost use Rattle.dm_packet.specs.Field.{number};
ghost use Rattle.dm_packet.specs.Fields.{addr as addr_field, bit_of, flags, link as link_field, pid as pid_field};
ghost use Rattle.dm_packet.specs.Widths.{Fits, FitsAddr, FitsLink, FitsPid};
ghost use Rattle.dm_packet.specs.Writes.{HasRoom, Puts};

use super::Buffer;
use byteorder::{BigEndian, ByteOrder};
use dm_link::{Addr, Kind, Link, Pid};

pub fn put_bytes(out: &mut Buffer, bytes: &[u8])
    requires room { HasRoom out.old bytes.now }
    ensures put { Puts out.old out.new bytes.now }
{
    let _ = out.try_extend_from_slice(bytes);
}

pub fn put_byte(out: &mut Buffer, byte: u8)
    requires room { HasRoom out.old ((number 1).spell byte) }
    ensures put { Puts out.old out.new ((number 1).spell byte) }
    ensures fits { Fits 1 byte }
{
    out.push(byte);
}

pub fn put_u16(out: &mut Buffer, n: u16)
    requires room { HasRoom out.old ((number 2).spell n) }
    ensures put { Puts out.old out.new ((number 2).spell n) }
    ensures fits { Fits 2 n }
{
    let mut bytes = [0; 2];
    BigEndian::write_u16(&mut bytes, n);
    put_bytes(out, &bytes);
}

pub fn put_u32(out: &mut Buffer, n: u32)
    requires room { HasRoom out.old ((number 4).spell n) }
    ensures put { Puts out.old out.new ((number 4).spell n) }
    ensures fits { Fits 4 n }
{
    let mut bytes = [0; 4];
    BigEndian::write_u32(&mut bytes, n);
    put_bytes(out, &bytes);
}

/// A yes or no.
pub fn put_bool(out: &mut Buffer, yes: bool)
    requires room { HasRoom out.old ((number 1).spell (bit_of yes)) }
    ensures put { Puts out.old out.new ((number 1).spell (bit_of yes)) }
{
    put_byte(out, u8::from(yes));
}

pub fn put_pid(out: &mut Buffer, pid: Pid)
    requires room { HasRoom out.old (pid_field.spell pid) }
    ensures put { Puts out.old out.new (pid_field.spell pid) }
    ensures fits { FitsPid pid }
{
    put_byte(out, pid.home);
    put_u32(out, pid.num);
}

pub fn put_addr(out: &mut Buffer, addr: Addr)
    requires room { HasRoom out.old (addr_field.spell addr) }
    ensures put { Puts out.old out.new (addr_field.spell addr) }
    ensures fits { FitsAddr addr }
{
    put_pid(out, addr.pid);
    put_byte(out, addr.at);
    put_u32(out, addr.moves);
}

/// 1 for a reply link, 4 and 8 for the rights to read and to write.
fn put_flags(out: &mut Buffer, link: &Link)
    requires room { HasRoom out.old (flags.spell (link.now.kind, link.now.area.read, link.now.area.write)) }
    ensures put { Puts out.old out.new (flags.spell (link.now.kind, link.now.area.read, link.now.area.write)) }
{
    let reply = u8::from(link.kind == Kind::Reply);
    let read = u8::from(link.area.read);
    let write = u8::from(link.area.write);
    put_byte(out, reply + 4 * read + 8 * write);
}

/// A link that isn't to a kernel.
pub fn put_link(out: &mut Buffer, link: &Link)
    requires room { HasRoom out.old (link_field.spell link.now) }
    ensures put { Puts out.old out.new (link_field.spell link.now) }
    ensures fits { FitsLink link.now }
{
    put_addr(out, link.addr);
    put_flags(out, link);
    put_u32(out, link.code);
    put_byte(out, link.channel);
    put_u32(out, link.area.base);
    put_u32(out, link.area.len);
}
