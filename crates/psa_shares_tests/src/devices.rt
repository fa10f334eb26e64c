//! Files and sinks that fail.
use crate::cases::put_if_wrong;
use crate::lines::put;
use crate::runs::{Devices, SOUND, found};
use std::alloc::Global;

/// Runs whose second call of the folder fails.
#[rattlefmt::skip]
pub const UNREAD: &str = r#"
# a file that stands
@ two.xml
{two}
$ two.xml => ReadFault
! scram: cannot read two.xml

# a file that is missing
@ one.xml
{two}
$ two.xml three.xml => ReadFault
! scram: cannot read two.xml"#;

/// The text of the two trains.
const TEXT: &str = "scram report
algorithm bdd
products minimal-cut-sets
limit-order 20
mission-time 8760.000000000000 8760.000000000000
cut-off 0.000000000000
top-event TwoTrains TopEvent
event PumpOne 2 0.000600000000 0.000600000000
event ValveOne 2 0.000300000000 0.000300000000
event PumpTwo 2 0.000600000000 0.000600000000
event ValveTwo 2 0.000300000000 0.000300000000
count 4
rare-event 0.000900000000 0.000900000000
";

/// What a run leaves that could not write its text, but for the text.
const UNWRITTEN: &str = "two.xml => WriteFault\n! scram: cannot write\n";

/// What a run over the two trains leaves.
fn found_of_two(alloc: Global, devices: &Devices) -> String {
    found(alloc, "two.xml", "two.xml\n{two}", devices)
}

/// Whether a run left its whole text and nothing else.
fn is_done(found: &str) -> bool {
    found.strip_prefix("two.xml => Done\n") == Some(TEXT)
}

/// What is left where one of the first calls of the folder fails, in files read by 200 bytes, and not as it should be.
pub fn wrong_calls(alloc: Global) -> String {
    let mut wrong = String::new(alloc);
    for call in 0..4 {
        let devices = Devices {
            read: 200,
            failing_calls: &[call],
            ..SOUND
        };
        let found = found_of_two(alloc, &devices);
        let fault = "two.xml => ReadFault\n! scram: cannot read two.xml\n";
        put_if_wrong(&mut wrong, fault, found.as_str());
    }
    wrong
}

/// What is left in a sink with less room than the text takes, and not as it should be.
pub fn wrong_rooms(alloc: Global) -> String {
    let mut wrong = String::new(alloc);
    for room in 0..TEXT.len() {
        let devices = Devices {
            write: 1,
            room,
            ..SOUND
        };
        let found = found_of_two(alloc, &devices);
        let part = TEXT.get(..room).unwrap_or("no part");
        if found.as_str().strip_prefix(UNWRITTEN) != Some(part) {
            put(&mut wrong, found.as_str());
        }
    }
    wrong
}

/// What is left where each write of seven bytes fails in turn, until a run is done, and not as it should be.
pub fn wrong_writes(alloc: Global) -> String {
    let mut wrong = String::new(alloc);
    for write in 0..200 {
        let devices = Devices {
            write: 7,
            failing_writes: &[write],
            ..SOUND
        };
        let found = found_of_two(alloc, &devices);
        if is_done(found.as_str()) {
            if write * 7 <= TEXT.len() as u64 {
                put(&mut wrong, "done too early");
            }
            return wrong;
        }
        let part = found.as_str().strip_prefix(UNWRITTEN).unwrap_or("no part");
        if !TEXT.starts_with(part) {
            put(&mut wrong, found.as_str());
        }
    }
    put(&mut wrong, "no run was done");
    wrong
}
