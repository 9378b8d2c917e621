//! The learning system's end of LTI: the messages that start a tool, and the service that takes its grades.
//!
//! LTI 1.1.1, section 3: a tool is started by a signed form that the user's browser posts, and `launch_form` makes it.
//! Section 6: the tool sends outcomes, which `outcome_call` reads and `outcome_answer` answers.
//! Promised: a form is the signed form of its terms, and says exactly their launch to the end that knows the key
//! (`a_launch_form_says_its_launch`); bytes ask exactly what the outcome that they spell asks; and a reply to an accepted
//! outcome is told by its one envelope.
#![tactic(auto)]

mod answers;
mod calls;
mod forms;
mod laws;
#[cfg(test)]
mod outcome_tests;
mod terms;
#[cfg(test)]
mod tests;

pub use answers::outcome_answer;
pub use calls::outcome_call;
pub use forms::launch_form;
pub use laws::a_launch_form_says_its_launch;
pub use terms::Terms;
