//! The fetchers of a world: what a step of each does.
#![tactic(auto)]

mod fetch;
mod fetcher;

pub use fetch::Fetching;
pub use fetcher::FetcherActor;
