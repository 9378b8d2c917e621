//! The machine that accepts signed calls: a list of what it accepted, and rules that are filters of it.
//! OAuth 1.0 (RFC 5849 section 3.3) has each nonce used once with its timestamp and its key. How far a
//! timestamp may be off, when a nonce is forgotten and how many a key may have are this project's own
//! rules, and no statement of that standard. The Basic Outcomes service (LTI 1.1.1 section 6) has the grade of
//! a sourcedId set, read and deleted; that the id must have been issued before is this project's own. Each
//! reply is promised to be the one that the rules decide over the whole list; only want of memory may stand in
//! place of an acceptance. An entry has bytes of its own, of this project's own form, which are read as no other. A list of
//! calls and replies is a history by the rules (`specs/History.antt`), whatever machine was asked them.
#![tactic(auto)]

mod call;
mod entry;
mod entry_fault;
mod entry_parts;
mod entry_reading;
mod entry_writing;
mod laws;
mod nonces;
mod places;
mod reply;
mod rules;
mod solo;
mod standing;
mod verdict;

pub use call::{Action, Call, GREATEST_MOMENT};
pub use entry::{Effect, Entry, entry_of};
pub use entry_fault::EntryFault;
pub use entry_reading::read_entry;
pub use entry_writing::{call_len, entry_bytes, entry_len};
pub use laws::{
    a_grade_is_told_as_it_was_set, a_grade_stands_by_its_last_entry, a_history_goes_by_the_rules,
    a_plain_history_goes_by_the_rules, an_accepted_call_is_in_its_bounds, an_entry_has_one_reading,
    digest_is_in_range, digest_serves, digest_serves_at_moment, live_is_part,
    no_nonce_is_accepted_twice, summary_decides, summary_goes_on, summary_goes_on_after,
};
pub use nonces::is_inside;
pub use reply::Reply;
pub use solo::Solo;
pub use standing::Standing;
pub use verdict::Verdict;
