//! The session: a line's reply, and what the session holds after it.
#![tactic(auto)]

mod commands;
mod held;
mod item;
mod joining;
mod line;
mod pipe;
mod refusing;
mod reply;
mod session;
mod settings;
mod step;
mod texts;

pub use gft_load::{ImportErr, load_grammar};
pub use session::Session;
pub use step::Step;
