//! Bodies, read to their announced length.

ghost use Rattle.std.specs.Prelude.{◌≡◌, ◌≤◌, OnOk, length};
ghost use Rattle.ev_ports.specs.Ports.{Rose};
ghost use Rattle.hw_wire.specs.Heads.{kept_of};
ghost use Rattle.hw_wire.specs.Bodies.{Moves, ReadsBody};
ghost use Rattle.hw_wire.specs.declared.bodies.BodyEnd.{BodyEnd};

use crate::reader::Reader;
use ev_ports::{Link, Took};
use std::alloc::{AllocError, Global};

/// How the reading of a body ended.
#[derive(Debug, Drop)]
pub enum BodyEnd {
    Whole(Vec<u8>),
    Cut,
    Fault,
    NoMemory,
}

/// Reads a body of that length, the kept bytes first.
pub fn read_body<L: Link>(
    alloc: Global,
    reader: &mut Reader,
    link: &mut L,
    wanted: usize,
) -> BodyEnd
    ensures reads { ReadsBody result wanted (L.left link.old) (L.left link.new)
        (kept_of reader.old) (kept_of reader.new) }
    ensures held { L.held link.new ≡ L.held link.old }
    ensures count { L.faults link.old ≤ L.faults link.new }
    ensures cause { result ≡ BodyEnd.Fault → Rose (L.faults link.old) (L.faults link.new) }
{
    let mut body = Vec::new(alloc);
    let Ok(()) = take_kept(reader, &mut body, wanted) else {
        return BodyEnd::NoMemory;
    };
    'body: while body.len() < wanted {
        match reader.fill(link) {
            Took::Bytes(_) => {}
            Took::End => return BodyEnd::Cut,
            Took::Failed => return BodyEnd::Fault,
        }
        let Ok(()) = take_kept(reader, &mut body, wanted) else {
            return BodyEnd::NoMemory;
        };
    }
    BodyEnd::Whole(body)
}

// Takes as many of the kept bytes as the body still wants.
fn take_kept(reader: &mut Reader, body: &mut Vec<u8>, wanted: usize) -> Result<(), AllocError>
    requires { length body.old.items ≤ wanted }
    ensures { OnOk result (Moves wanted body.old.items body.new.items
        (kept_of reader.old) (kept_of reader.new)) }
{
    let count = reader.pending().len().min(wanted - body.len());
    body.extend_from_slice(&reader.pending()[..count])?;
    reader.consume(count);
    Ok(())
}
