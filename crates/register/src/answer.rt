// What a session answers to a line.
pub use answers::Answer;
