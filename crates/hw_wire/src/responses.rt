//! Responses, written whole.

ghost use Rattle.std.specs.Prelude.{◌≡◌, ◌≤◌};
ghost use Rattle.ev_ports.specs.Ports.{PutsAll, Rose};
ghost use Rattle.ev_ports.specs.declared.writing.Written.{Written};

use ev_ports::{Link, Put, Written};

/// The whole text of a response.
#[derive(Debug, Drop)]
pub struct Response {
    pub bytes: Vec<u8>,
}

/// Writes a response, in as many writes as the link needs, and stops at the first fault.
pub fn write_response<L: Link>(link: &mut L, response: &Response) -> Written
    ensures put { PutsAll result (L.held link.old) response.now.bytes.items (L.held link.new) }
    ensures left { L.left link.new ≡ L.left link.old }
    ensures count { L.faults link.old ≤ L.faults link.new }
    ensures cause { result ≡ Written.Failed → Rose (L.faults link.old) (L.faults link.new) }
{
    write_bytes(link, &response.bytes)
}

fn write_bytes<L: Link>(link: &mut L, bytes: &[u8]) -> Written
    ensures put { PutsAll result (L.held link.old) bytes.now (L.held link.new) }
    ensures left { L.left link.new ≡ L.left link.old }
    ensures count { L.faults link.old ≤ L.faults link.new }
    ensures cause { result ≡ Written.Failed → Rose (L.faults link.old) (L.faults link.new) }
{
    let mut done = 0;
    while done < bytes.len() {
        match link.write(&bytes[done..]) {
            Put::Wrote(count) => done += count,
            Put::Failed => return Written::Failed,
        }
    }
    Written::All
}
