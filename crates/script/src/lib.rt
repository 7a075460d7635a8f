//! The script language: a line is read, its command is carried out on a heap, and the answer is put into a lent buffer. A script comes in parts of any length,
//! and nothing of it is kept but what has come of one line. No call requires anything of its arguments, and each ends on every input and every state.
#![tactic(auto)]

mod answer;
mod carrying_out;
mod command;
mod held;
mod lines_out;
mod session;
mod text;

pub use answer::Why;
pub use carrying_out::Script;
pub use command::{Command, read_line};
pub use held::Held;
pub use lines_out::write_answer;
pub use session::{Fed, Session};
