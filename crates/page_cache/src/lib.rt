//! Pages at their versions from a bounded cache, which makes a later version from an earlier one.
#![tactic(auto)]

mod cache;
mod error;
mod kept;
mod pages;
mod recent;

pub use cache::PageCache;
pub use error::CacheError;
pub use pages::KeptPages;
