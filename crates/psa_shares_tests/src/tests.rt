use crate::cases::wrong_cases;
use crate::devices::{UNREAD, wrong_calls, wrong_rooms, wrong_writes};
use crate::runs::{Devices, SOUND};
use crate::shares::SHARES;

/// Runs over files and sinks that never fail.
#[test]
fn runs(rt: HostRuntime) {
    assert_eq!(rt; wrong_cases(rt.alloc(), SHARES, &SOUND).as_str(), "");
}

/// Reads and writes of one byte, and a call of the folder that fails.
#[test]
fn devices(rt: HostRuntime) {
    for (cases, devices) in [
        (
            SHARES,
            Devices {
                read: 1,
                write: 1,
                ..SOUND
            },
        ),
        (
            UNREAD,
            Devices {
                failing_calls: &[1],
                ..SOUND
            },
        ),
    ] {
        assert_eq!(rt; wrong_cases(rt.alloc(), cases, &devices).as_str(), "");
    }
}

/// Calls of the folder, each room of a sink and each write.
#[test]
fn places(rt: HostRuntime) {
    assert_eq!(rt; wrong_calls(rt.alloc()).as_str(), "");
    assert_eq!(rt; wrong_rooms(rt.alloc()).as_str(), "");
    assert_eq!(rt; wrong_writes(rt.alloc()).as_str(), "");
}
