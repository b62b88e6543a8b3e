// The subcommand list: every word of a small code.
use commands::{Job, Outcome, Page};
use replies::Profile;
use statuses::Status;
use std::io::Print;
use std::rt::Env;
use text::Writer;

// Lists a small code.
pub fn list<R: Env + Print>(page: &mut Page<R>, job: Job) -> Outcome {
    let p = job.asked.profile;
    replies::check_profile(p)?;
    let mut typed = [0u8; 12];
    let mut line = Writer {
        out: &mut typed,
        at: 0,
    };
    line.put_profile(p);
    line.put(b"\n");
    let mut listed = [0u8; code_as_text::MOST_BYTES];
    let count = code_as_text::list(line.front(), &mut listed)?;
    Ok(tell(page, job.line.json, parts::first(&listed, count)))
}

// Tells a listing, or that the code is too large. The exit status.
fn tell<R: Env + Print>(page: &mut Page<R>, as_json: bool, listed: &[u8]) -> Status {
    let too_many = listed == b"too many\n".as_slice();
    let status = if too_many {
        Status::Refused
    } else {
        Status::Done
    };
    if !as_json {
        page.bytes(listed);
    } else if too_many {
        page.begin_object(status);
        page.field("told", "\"too many\"");
        page.end_object();
    } else {
        page.begin_done();
        fields(page, listed);
        page.end_object();
    }
    status
}

// What stands before field k of a listing: five of the first line; then three of each line, which begin
// with field 5 in the first and with field 8 in each further one.
fn before_field(k: usize) -> &'static str {
    match k {
        0 => ",\"q\":",
        1 => ",\"m\":",
        2 => ",\"x\":",
        3 => ",\"words\":",
        4 => ",\"bits\":",
        5 => ",\"list\":[{\"index\":",
        6 => ",\"levels\":[",
        7 => "],\"message\":",
        _ => "},{\"index\":",
    }
}

// A listing as the fields of an object. A hyphen stands for no message.
fn fields<R: Print>(page: &mut Page<R>, listed: &[u8]) {
    let mut k = 0;
    write!(page, "{}", before_field(k));
    for byte in parts::first(listed, listed.len().saturating_sub(1)) {
        match *byte {
            b' ' | b'\n' => {
                k = if k < 8 { k + 1 } else { 6 };
                write!(page, "{}", before_field(k));
            }
            b'-' => write!(page, "null"),
            digit => page.bytes(&[digit]),
        }
    }
    write!(page, "}}]");
}
