//! Worked examples of the dirty log, versions, caches, images and the final copy.

mod cache;
mod copy;
mod fixtures;
mod image;
mod machine;
mod packed;
mod released;
mod resent;
mod version;
mod word;
