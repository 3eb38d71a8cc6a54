//! The board of a kernel: one publisher, and followers that read what was published.
#![tactic(auto)]

pub mod board;
pub mod follower;
pub mod marks;
pub mod news;
pub mod owner;
pub mod posted;
pub mod publisher;
pub mod rule;
pub mod sizes;

pub use board::{Board, Followers};
pub use follower::{Follower, Refusal};
pub use news::News;
pub use publisher::Publisher;
