// Vectors of records: readings, parts that cursors hand out, ranked lists, and what a decoder that others
// wrote found in surveys.
#![tactic(auto)]

pub mod outside_signals;
pub mod ranked_lists;
pub mod record_cases;
pub mod record_parts;
pub mod report_texts;
