//! Serves the sample bank. `listed_sample` keeps its opening in lists, which pass both checks, and `sql_sample` in SQL
//! tables in memory. `serve_sample` serves a stream with the sample's badges, one moment for all messages, and
//! 1,000,000 replies at most. `answer_sample`, `answer_with_cache`, which puts a cache before any store, and
//! `answer_in`, which takes the store of a `StoreName`, end with the status 0 exactly where that went well. That only
//! memory keeps one from the sample is only tested.
#![tactic(auto)]

mod answer;
mod badges;
mod service;
mod store_name;
mod stores;
mod tables;

pub use answer::{answer_sample, answer_with_cache};
pub use badges::SampleBadges;
pub use counter_service::{Moment, ServeFault, Served};
pub use exit_lines::{fail, tell};
pub use service::{serve_sample, serve_sample_with_cache};
pub use store_name::{StoreName, answer_in};
pub use stores::listed_sample;
pub use tables::sql_sample;
