//! Definitions that the model and the node table share: sets of ranks, minimal cut sets, prime
//! implicants and the order of a report. Their laws are the contracts of functions with empty bodies.
#![tactic(auto)]

mod laws;

pub use laws::{
    consistent_products_hold, listing_is_unique, literal_numbers_are_read_back,
    minimal_cut_sets_are_least, parts_are_subsets, prime_implicants_are_least,
    report_order_is_strict, sets_are_their_members,
};
