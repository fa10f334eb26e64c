//! Files and sinks that fail.
use crate::cases::put_if_wrong;
use crate::lines::put;
use crate::runs::{Devices, SOUND, found};
use std::alloc::Global;

/// Runs whose second call of the folder fails.
#[rattlefmt::skip]
pub const UNREAD: &str = r#"
# a file that stands
@ two.xml
{two}
$ two.xml => ReadFault
! scram: cannot read two.xml

# a file that is missing
@ one.xml
{two}
$ two.xml three.xml => ReadFault
! scram: cannot read two.xml"#;

/// A run whose first line on standard error fails.
#[rattlefmt::skip]
pub const UNTOLD: &str = r#"
# no words
$  => BadWords, no file opened"#;

/// Runs whose report goes through blocks.
#[rattlefmt::skip]
pub const IN_BLOCKS: &str = r#"
# a report is whole after the run
@ two.xml
{two}
$ two.xml => Done
{report bdd ... minimal-cut-sets ... 20}
top-event TwoTrains TopEvent
- 2 PumpOne PumpTwo
- 2 PumpOne ValveTwo
- 2 ValveOne PumpTwo
- 2 ValveOne ValveTwo
count 4

# and also where it ends early
@ nl.xml
{nodes}
$ --node-limit 3 nl.xml => NodeLimit(2), nodes: 3
! scram: node limit at target 2
{report bdd ... minimal-cut-sets ... 20}
top-event F g1
- 1 a
count 1"#;

/// A run whose report goes through blocks, of which the first two writes fail.
#[rattlefmt::skip]
pub const UNWRITTEN_BLOCKS: &str = r#"
# a block that cannot be passed on at the end is a failed write
@ two.xml
{two}
$ two.xml => WriteFault
! scram: cannot write"#;

/// The report on the two trains.
const REPORT: &str = "scram report
algorithm bdd
products minimal-cut-sets
limit-order 20
top-event TwoTrains TopEvent
- 2 PumpOne PumpTwo
- 2 PumpOne ValveTwo
- 2 ValveOne PumpTwo
- 2 ValveOne ValveTwo
count 4
";

/// How often the files of the two trains are opened and read, by 64 bytes at once.
const CALLS: u64 = 11;

/// What a run leaves that could not write its report, but for the report.
const UNWRITTEN: &str = "two.xml => WriteFault\n! scram: cannot write\n";

/// What a run over the two trains leaves.
fn found_of_two(alloc: Global, devices: &Devices) -> String {
    found(alloc, "two.xml", "two.xml\n{two}", devices)
}

/// Whether a run left its whole report and nothing else.
pub fn is_done(found: &str) -> bool {
    found.strip_prefix("two.xml => Done\n") == Some(REPORT)
}

/// What is left where each call of the folder fails in turn, in files read by 64 bytes, and not as it should be.
pub fn wrong_calls(alloc: Global) -> String {
    let mut wrong = String::new(alloc);
    for call in 0..64 {
        let devices = Devices {
            read: 64,
            failing_calls: &[call],
            ..SOUND
        };
        let found = found_of_two(alloc, &devices);
        if call < CALLS {
            let fault = "two.xml => ReadFault\n! scram: cannot read two.xml\n";
            put_if_wrong(&mut wrong, fault, found.as_str());
        } else if !is_done(found.as_str()) {
            put(&mut wrong, found.as_str());
        }
    }
    wrong
}

/// What is left in a sink with less room than the report takes, and not as it should be.
pub fn wrong_rooms(alloc: Global) -> String {
    let mut wrong = String::new(alloc);
    for room in 0..REPORT.len() {
        let devices = Devices {
            write: 1,
            room,
            ..SOUND
        };
        let found = found_of_two(alloc, &devices);
        let part = REPORT.get(..room).unwrap_or("no part");
        if found.as_str().strip_prefix(UNWRITTEN) != Some(part) {
            put(&mut wrong, found.as_str());
        }
    }
    wrong
}

/// What is left where each write of seven bytes fails in turn, until a run is done, and not as it should be.
pub fn wrong_writes(alloc: Global) -> String {
    let mut wrong = String::new(alloc);
    for write in 0..200 {
        let devices = Devices {
            write: 7,
            failing_writes: &[write],
            ..SOUND
        };
        let found = found_of_two(alloc, &devices);
        if is_done(found.as_str()) {
            if write * 7 <= REPORT.len() as u64 {
                put(&mut wrong, "done too early");
            }
            return wrong;
        }
        let part = found.as_str().strip_prefix(UNWRITTEN).unwrap_or("no part");
        if !REPORT.starts_with(part) {
            put(&mut wrong, found.as_str());
        }
    }
    put(&mut wrong, "no run was done");
    wrong
}

/// What is left where the second write of one byte fails, and not as it should be.
pub fn wrong_second_write(alloc: Global) -> String {
    let mut wrong = String::new(alloc);
    let devices = Devices {
        write: 1,
        failing_writes: &[1],
        ..SOUND
    };
    let found = found_of_two(alloc, &devices);
    let wanted = "two.xml => WriteFault\n! scram: cannot write\ns";
    put_if_wrong(&mut wrong, wanted, found.as_str());
    wrong
}
