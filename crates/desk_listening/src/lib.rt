//! The desk at a listening socket: connections served one after the other.
#![tactic(auto)]

mod accepting;
mod call;
mod draining;
mod ends;
mod listener;
mod listening;
mod patience;
mod peer;
mod sockets;

pub use accepting::{AcceptFailed, Served};
pub use call::PeerCall;
pub use draining::{Drained, drain};
pub use listener::Listener;
pub use listening::{serve_connections, serve_peer};
pub use patience::Patience;
pub use peer::Peer;
pub use sockets::{Socket, Sockets};
