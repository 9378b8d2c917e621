//! The roles of a launch, read and printed.
//!
//! LTI 1.1.1 (section 3, parameter `roles`, and appendix A) has a list of roles between commas, each a URN of the LIS
//! vocabulary or a context role's name alone. Every text is read: what the vocabulary doesn't know is kept as it
//! is spelled. That, and which spellings are known, are this project's own rules. Reading is exact, printing gives the
//! spellings back, and reading what was printed gives the same roles.
#![tactic(auto)]

mod element;
mod elements;
mod laws;
mod names;
mod role;
mod role_set;
mod tables;
#[cfg(test)]
mod tests;

pub use laws::{names_are_read, printed_is_read};
pub use names::{ContextRole, InstitutionRole, RoleName, SystemRole};
pub use role::Role;
pub use role_set::RoleSet;
