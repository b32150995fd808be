//! Runs of characters at the front of a text, and the names, tags, strings and comments that are made of them.
#![tactic(auto)]

mod cuts;
mod laws;
mod quotes;
mod runs;
#[cfg(test)]
mod tests;

pub use cuts::{
    after_comment, behind_byte, cut_at_either, cut_label, cut_name, cut_prefix, cut_some, cut_tag,
    is_blank,
};
pub use laws::{label_one, quoted_one, tag_one};
pub use quotes::cut_text;
pub use runs::{Class, behind_one, run, run_undotted};
