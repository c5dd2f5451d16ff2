//! The methods of requests.

ghost use Rattle.std.specs.Prelude.{◌≡◌};
ghost use Rattle.desk_routes.specs.Table.{method_of, method_text};

/// A method that some route takes.
#[derive(Clone, Copy, Debug, PartialEq, Eq)]
pub enum Method {
    Delete,
    Get,
    Post,
    Put,
}

impl Method {
    /// The word of a request line.
    pub fn as_str(self) -> &'static str
        ensures { result.now ≡ method_text self }
    {
        match self {
            Method::Delete => "DELETE",
            Method::Get => "GET",
            Method::Post => "POST",
            Method::Put => "PUT",
        }
    }

    /// The method that a word is, compared exactly.
    pub(crate) fn read(text: &str) -> Option<Method>
        ensures { result ≡ method_of text.now }
    {
        match text {
            "DELETE" => Some(Method::Delete),
            "GET" => Some(Method::Get),
            "POST" => Some(Method::Post),
            "PUT" => Some(Method::Put),
            _ => None,
        }
    }
}
