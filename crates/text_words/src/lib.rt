// Lines, words, numbers and names of the two small texts that are read line by line, a network's and a certificate's,
// and where the head of such a text stands; whether a word is a literal; and a test, or else a fault.
#![tactic(auto)]

mod head_finder;
mod line_cutter;
mod line_words;
mod literal;
mod name_rule;
mod number_reader;
mod steps;
mod word_cutter;

pub use head_finder::behind_head;
pub use line_cutter::{next_line, without_mark};
pub use line_words::{count_words, word_at};
pub use literal::is_literal;
pub use name_rule::is_name;
pub use number_reader::number;
pub use steps::demand;
pub use word_cutter::{is_space_or_tab, next_word};
