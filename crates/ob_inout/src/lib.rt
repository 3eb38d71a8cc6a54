//! The modules In and Out: what they read from lines and what they write.
#![tactic(auto)]

mod answer;
mod front;
mod law;
mod line;
mod line_buffer;
mod output;

pub use answer::Answer;
pub use law::one_more_line_law;
pub use line_buffer::LineBuffer;
pub use output::{put_char, put_int, put_line_end, put_string};
