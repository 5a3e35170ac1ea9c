//! Worked examples of traces, frames, streams and parts, of what is wrong in streams, and of lanes and receivers.

mod fixtures;
mod frame;
mod lane;
mod part;
mod piece;
mod receiver;
mod stream;
mod trace;
mod wrong_stream;
mod zero;
