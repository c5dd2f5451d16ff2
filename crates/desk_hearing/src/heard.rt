//! What was heard.

ghost use Rattle.std.specs.Prelude.{◌≡◌};
ghost use Rattle.desk_hearing.specs.Asking.{ask_and_bag};

use crate::owned_request::OwnedRequest;
use office_core::{OwnedName, Request};
use std::marker::Model;

/// A request that was heard. It owns its bytes, and lends what they ask.
#[derive(Drop)]
pub struct Heard {
    pub(crate) caller: Option<OwnedName>,
    pub(crate) request: OwnedRequest,
    /// The bytes that were read, of which the body is what follows the head.
    pub(crate) bytes: Vec<u8>,
    /// Where the body begins.
    pub(crate) body: usize,
}

impl Model for Heard {
    ghost use Rattle.std.specs.Prelude.{◌≤◌, length, drop};
    ghost use Rattle.desk_hearing.specs.Asking.{HeardValue, heard_from};

    ghost Value = { HeardValue };

    ghost view = { λ heard.
        heard_from heard.caller heard.request (drop heard.body heard.bytes.items) };

    ghost invariant = { λ heard. heard.body ≤ length heard.bytes.items };
}

impl Heard {
    /// The name of who asks, or the empty text.
    pub fn caller(&self) -> &str
        ensures { result.now ≡ self.now.caller }
    {
        match &self.caller {
            Some(name) => name.as_str(),
            None => "",
        }
    }

    /// What is asked. It lends the bytes that were heard, and takes no memory.
    pub fn request(&self) -> Request<'_>
        ensures { ask_and_bag result ≡ (self.now.request, self.now.bag) }
    {
        self.request.lend(&self.bytes[self.body..])
    }
}
