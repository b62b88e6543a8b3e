// The text of a reply, with all that was lent shown after the answer.
use crate::lent;
use script::Case;
use script::show::MARKED_CELL;

pub fn reply_text(case: &mut Case) {
    let number = case.byte();
    let place = case.count();
    let reply = replies::refused_at(number, place);
    lent::written(case, &mut [MARKED_CELL; 300], |out| {
        outcomes::reply_text(reply, out)
    });
}
