// Runs every call but the listing over a script of cases, and prints every answer
// with what was lent after it. The script and what must be printed are written by tests/calls.py, which
// shares no code with the crates.
#![tactic(auto)]

mod lent;
mod long;
mod on_profiles;
mod stream;
mod table;
mod texts;
mod word;

use script::show;

// One case: the number of the call, then what the call takes.
fn case() {
    let mut text = [0; 16384];
    let mut case = script::next_case(&mut text);
    match case.number() {
        1 => table::build(&mut case),
        2 => table::shipped(&mut case),
        3 => word::index(&mut case),
        4 => word::word(&mut case),
        5 => word::find(&mut case),
        6 => on_profiles::published(&mut case),
        7 => on_profiles::rate(&mut case),
        8 => stream::write(&mut case),
        9 => stream::read(&mut case),
        10 => stream::join(&mut case),
        11 => stream::turn(&mut case),
        12 => long::stream(&mut case),
        13 => texts::reply_text(&mut case),
        _ => show::end(),
    }
}

fn main() {
    for _ in 0..script::cases() {
        case();
    }
}
