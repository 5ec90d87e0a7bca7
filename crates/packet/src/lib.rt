// Packets: how settings and offers travel as bytes.
//
// A packet is a table of contents followed by the bodies that it names. `body` has the sorts of packets and the bodies that a
// reader gives out, `table` takes an entry of the table apart, `reader` puts the questions of a packet, `codes` those of a
// polynomial's body, `contents` both for a whole setting packet or offer, `writer` writes packets into a lent
// buffer, and `theorems` names what holds of all packets.
#![tactic(auto)]

mod body;
mod codes;
mod contents;
mod reader;
mod table;
mod theorems;
mod writer;

pub use body::{Body, Kind, Sort};
pub use codes::read_poly;
pub use contents::{read_offer, read_setting};
pub use reader::read;
pub use theorems::packets_stand;
pub use writer::{write_offer, write_setting};
