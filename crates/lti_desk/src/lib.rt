//! What stands behind a server: the machine whose accepted calls are kept on a disk.
//!
//! A keeper answers each call as `lti_machine` decides over the list of all accepted entries, without keeping that
//! list: it has a window of nonces and a book of grades (`ledger`). What it accepts it writes to its journal first
//! (`keeping`), and a mounting finds it there again (`mounting`). An `Office` is a keeper with the history of its
//! calls, and can stand behind a turn lock. The journal, its limits and its faults are this project's own.
#![tactic(auto)]

mod keeper;
mod keeping;
mod laws;
mod ledger;
mod mounting;
mod office;
mod origin;
#[cfg(test)]
mod tests;

pub use laws::{
    a_digest_is_held, a_legal_history_goes_by_the_rules, a_run_serves, told_faults_never_fall,
    what_is_kept_is_over_one_list, what_is_kept_is_read, what_was_read_is_one_list,
};
pub use office::Office;
pub use origin::Origin;
