//! Why a request is refused, and what is answered to it.
ghost use Rattle.std.specs.Prelude.{◌≡◌, option_map};
ghost use Rattle.dip_http_messages.specs.Answers.{refusal_body};
ghost use Rattle.dip_http_messages.specs.AnswerViews.{allowed, status_number};

use http::StatusCode;

/// The reasons to refuse a request, each with the status that its answer has.
#[derive(Clone, Copy, Debug, PartialEq, Eq)]
pub enum HttpRefusal {
    /// 400: there is no head within the limits, its fields or its target are refused, or the input ends early.
    BadRequest,
    /// 404: the path names no place, or there is no such game or paper.
    NotFound,
    /// 405, where letters are handed in: the method isn't POST.
    OnlyPost,
    /// 405, at a game or a paper: the method is neither GET nor HEAD.
    OnlyGet,
    /// 411: a POST doesn't say how long its body is.
    LengthRequired,
    /// 413: the body has more bytes than a letter may have.
    TooLarge,
    /// 503: what keeps the desk gave no answer.
    Unavailable,
}

impl HttpRefusal {
    /// The answer's status. `OnlyPost` and `OnlyGet` both have 405.
    pub fn status(self) -> StatusCode
        ensures { result ≡ status_number self }
    {
        match self {
            HttpRefusal::BadRequest => StatusCode::BAD_REQUEST,
            HttpRefusal::NotFound => StatusCode::NOT_FOUND,
            HttpRefusal::OnlyPost | HttpRefusal::OnlyGet => StatusCode::METHOD_NOT_ALLOWED,
            HttpRefusal::LengthRequired => StatusCode::LENGTH_REQUIRED,
            HttpRefusal::TooLarge => StatusCode::PAYLOAD_TOO_LARGE,
            HttpRefusal::Unavailable => StatusCode::SERVICE_UNAVAILABLE,
        }
    }

    /// The methods that are allowed, where another one was used.
    pub fn allow(self) -> Option<&'static str>
        ensures { option_map (λ m. m.now) result ≡ allowed self }
    {
        match self {
            HttpRefusal::OnlyPost => Some("POST"),
            HttpRefusal::OnlyGet => Some("GET, HEAD"),
            _ => None,
        }
    }

    /// The body of the answer: its status, a space, its phrase and LF.
    pub fn body(self) -> &'static str
        ensures { result.now ≡ refusal_body (status_number self) }
    {
        match self {
            HttpRefusal::BadRequest => "400 Bad Request\n",
            HttpRefusal::NotFound => "404 Not Found\n",
            HttpRefusal::OnlyPost => "405 Method Not Allowed\n",
            HttpRefusal::OnlyGet => "405 Method Not Allowed\n",
            HttpRefusal::LengthRequired => "411 Length Required\n",
            HttpRefusal::TooLarge => "413 Payload Too Large\n",
            HttpRefusal::Unavailable => "503 Service Unavailable\n",
        }
    }
}
