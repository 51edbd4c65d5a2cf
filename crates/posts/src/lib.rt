// Posts: what carries frames between participants, and what it may lose.
#![tactic(auto)]

pub mod barrier;
pub mod line;
mod parcel;
pub mod post;
pub mod quota;
mod sendable;
pub mod shelf;
mod tray;
