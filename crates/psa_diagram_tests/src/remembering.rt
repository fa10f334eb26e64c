use psa_nodes::{MemoKey, NodeId, NodeTable, Operation};
use std::alloc::Global;

/// Whether a table gives a result under the key under which it was remembered, alone.
pub fn remembers(alloc: Global) -> bool {
    let mut table = NodeTable::new(alloc);
    let key = MemoKey {
        operation: Operation::And,
        left: NodeId::TRUE,
        right: NodeId::FALSE,
        limit: 0,
    };
    let other = MemoKey {
        operation: Operation::Or,
        ..key
    };
    let absent = table.remembered(&key).is_none();
    let kept = table.remember(key, NodeId::FALSE).is_ok();
    let present = table.remembered(&key) == Some(NodeId::FALSE);
    let other_absent = table.remembered(&other).is_none();
    absent && kept && present && other_absent && table.entries() == 1
}
