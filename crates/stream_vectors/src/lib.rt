// Vectors of streams and numbers: captures, packets read and written, written pages, rank keys, and what a decoder
// that others wrote joined.
#![tactic(auto)]

pub mod captures;
pub mod outside_pages;
pub mod packet_text;
pub mod rank_cases;
pub mod writer_cases;
