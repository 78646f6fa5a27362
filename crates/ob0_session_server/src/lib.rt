//! Implements the server without its streams (docs/PROTOCOL.md). It takes the contents of the
//! messages that an editor sends, and returns the contents of its replies. A content is the bytes
//! of one message after its head.
#![tactic(auto)]

mod session;

pub use session::{Next, Session, SessionFault, Step};
