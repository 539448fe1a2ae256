// Page schemes.
//
// A report comes in pages, each in a packet's data behind a header. `Scheme` is what a page scheme must
// show; `RawData` and `AppFile` are two.
#![tactic(auto)]

pub mod app_file;
pub mod fault;
pub mod header;
pub mod raw_data;
pub mod scheme;
