use crate::accepted::ACCEPTED;
use crate::drafts::DRAFTS;
use crate::order::{LIMITS, ORDER};
use crate::refused::REFUSED;
use crate::rows::{wrong_draft, wrong_rows};

#[test]
fn finds_first_faults(rt: HostRuntime) {
    for rows in [REFUSED, ACCEPTED, ORDER, LIMITS] {
        let wrong = wrong_rows(rt.alloc(), rows);
        assert_eq!(rt; wrong.as_str(), "");
    }
}

#[test]
fn reads_drafts(rt: HostRuntime) {
    for case in DRAFTS {
        let wrong = wrong_draft(rt.alloc(), case);
        assert_eq!(rt; wrong.as_str(), "");
    }
}
