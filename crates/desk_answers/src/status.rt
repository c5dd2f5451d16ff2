//! The statuses of answers.

ghost use Rattle.std.specs.Prelude.{◌≡◌, Some};
ghost use Rattle.desk_answers.specs.Statuses.{code_of, phrase_of, status_text};

use std::fmt;

/// A status that an answer may have. Each is named by its reason phrase, but for `Success`, 200 OK.
#[derive(Clone, Copy)]
pub enum Status {
    Success,
    Created,
    BadRequest,
    Forbidden,
    NotFound,
    MethodNotAllowed,
    Conflict,
    Gone,
    ContentTooLarge,
    UnprocessableContent,
    ServiceUnavailable,
}

impl Status {
    /// The number in a status line.
    fn code(self) -> u16
        ensures { result ≡ code_of self }
    {
        match self {
            Status::Success => 200,
            Status::Created => 201,
            Status::BadRequest => 400,
            Status::Forbidden => 403,
            Status::NotFound => 404,
            Status::MethodNotAllowed => 405,
            Status::Conflict => 409,
            Status::Gone => 410,
            Status::ContentTooLarge => 413,
            Status::UnprocessableContent => 422,
            Status::ServiceUnavailable => 503,
        }
    }

    /// The phrase after the number.
    fn reason(self) -> &'static str
        ensures { result.now ≡ phrase_of self }
    {
        match self {
            Status::Success => "OK",
            Status::Created => "Created",
            Status::BadRequest => "Bad Request",
            Status::Forbidden => "Forbidden",
            Status::NotFound => "Not Found",
            Status::MethodNotAllowed => "Method Not Allowed",
            Status::Conflict => "Conflict",
            Status::Gone => "Gone",
            Status::ContentTooLarge => "Content Too Large",
            Status::UnprocessableContent => "Unprocessable Content",
            Status::ServiceUnavailable => "Service Unavailable",
        }
    }
}

impl fmt::Display for Status {
    ghost output = { λ status. Some (status_text status) };

    fn fmt<W: fmt::Write>(&self, f: &mut fmt::Formatter<W>) -> fmt::Result {
        let code = self.code();
        let reason = self.reason();
        write!(f, "{code} {reason}")
    }
}
