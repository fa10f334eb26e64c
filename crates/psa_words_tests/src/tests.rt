use crate::number_rows::{DECIMALS, IN_UNIT, INTERVALS, PRINTED};
use crate::port_rows::{FOLDERS, SINKS};
use crate::rows::{Subject, wrong_rows};
use crate::system::{Fault, fails, put_wrong_files, put_wrong_in_turn, writes};
use crate::word_rows::{ACCEPTED, REFUSED};

#[test]
fn holds_in_each_row(rt: HostRuntime) {
    for (subject, rows) in [
        (Subject::Numbers, DECIMALS),
        (Subject::Numbers, INTERVALS),
        (Subject::Numbers, IN_UNIT),
        (Subject::Numbers, PRINTED),
        (Subject::Words, ACCEPTED),
        (Subject::Words, REFUSED),
        (Subject::Folders, FOLDERS),
        (Subject::Sinks, SINKS),
    ] {
        let wrong = wrong_rows(rt.alloc(), subject, rows);
        assert_eq!(rt; wrong.as_str(), "");
    }
}

#[test]
fn reads_files_of_the_system(rt: HostRuntime) {
    let mut wrong = String::new(rt.alloc());
    put_wrong_files(rt.alloc(), &mut wrong, &rt);
    put_wrong_in_turn(rt.alloc(), &mut wrong, &rt);
    assert_eq!(rt; wrong.as_str(), " 1 5 5");
}

#[test]
fn writes_to_a_writer(rt: HostRuntime) {
    assert!(rt; writes(rt.alloc()));
    for fault in [Fault::Write, Fault::Nothing, Fault::Flush] {
        assert!(rt; fails(fault));
    }
}
