// The joining of a report's pages.
//
// A `Collector`, written once for every page scheme, joins the bodies of a report's pages in its `Store`.
#![tactic(auto)]

pub mod collector;
pub mod store;
