//! The words of a command line: their grammar, and the settings that they mean.
#![tactic(auto)]

mod beside;
mod explaining;
mod grammar;
mod help;
mod joint;
mod lookup;
mod meanings;
mod mistake;
mod numbers;
mod options;
mod read;
mod sender;
mod settings;
mod usage;

pub use beside::{first_of, progress_of, says_progress, seconds_of, written_of};
pub use explaining::explain;
pub use help::{command_page, help_page, overview_page};
pub use read::read_words;
pub use settings::Settings;
pub use usage::Usage;
