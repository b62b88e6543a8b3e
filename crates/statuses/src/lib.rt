// The exit status of the bench program: 0 done, 1 refused, 2 a wrong command line or trouble with a file.
#![tactic(auto)]

ghost use Rattle.std.specs.Prelude.{◌≡◌, max};
ghost use Rattle.replies.specs.Answers.{refusal_reply, reply_of};
ghost use Rattle.std.specs.Process.{exit_status};
ghost use Rattle.statuses.specs.Statuses.{status_of, status_told, code_of};

use replies::{Refusal, Reply};
use std::process::ExitCode;

// All is done; a call is refused; the command line is wrong, or there is trouble with a file.
#[derive(Clone, Copy, PartialEq, Eq, PartialOrd, Ord, Debug)]
pub enum Status {
    Done = 0,
    Refused = 1,
    Trouble = 2,
}

impl Status {
    // The number that the program exits with.
    pub fn code(self) -> u8
        ensures { result ≡ code_of self }
    {
        self as u8
    }

    // The status of two together, which is the greater.
    pub fn or_worse(self, other: Status) -> Status
        ensures { code_of result ≡ max (code_of self) (code_of other) }
    {
        self.max(other)
    }

    // The status of a call of which all was told, or not all could be.
    pub fn told(self, whole: bool) -> Status
        ensures { code_of result ≡ status_told (code_of self) whole }
    {
        if whole { self } else { Status::Trouble }
    }
}

impl From<Status> for ExitCode {
    ghost from_gives = { λ status code. exit_status code ≡ code_of status };

    fn from(status: Status) -> ExitCode {
        ExitCode::from(status.code())
    }
}

// The status that a reply means.
impl From<Reply> for Status {
    ghost from_gives = { λ reply status. code_of status ≡ status_of reply };

    fn from(reply: Reply) -> Status {
        if reply.number == 0 {
            Status::Done
        } else {
            Status::Refused
        }
    }
}

// The status that a refusal means.
impl From<Refusal> for Status {
    ghost from_gives = { λ refusal status. code_of status ≡ status_of (refusal_reply refusal) };

    fn from(_refusal: Refusal) -> Status {
        Status::Refused
    }
}

// The status that a call's answer means.
impl<T: Drop> From<Result<T, Refusal>> for Status {
    ghost from_gives = { λ answer status. code_of status ≡ status_of (reply_of answer) };

    fn from(answer: Result<T, Refusal>) -> Status {
        Reply::from(answer).into()
    }
}

// The number of the status that a reply means.
pub fn of_reply(reply: Reply) -> u8
    ensures { result ≡ status_of reply }
{
    Status::from(reply).code()
}

// Of two numbers that a program may exit with, the greater.
pub fn worse(a: u8, b: u8) -> u8
    ensures { result ≡ max a b }
{
    a.max(b)
}

// The number that a program exits with, where all was told, or not all could be.
pub fn told(status: u8, whole: bool) -> u8
    ensures { result ≡ status_told status whole }
{
    if whole {
        status
    } else {
        Status::Trouble.code()
    }
}
