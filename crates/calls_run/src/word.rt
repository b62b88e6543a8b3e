// The calls on one word and on one run of cells.
use crate::lent;
use script::show::MARKED_CELL;
use script::{Case, show};

pub fn index(case: &mut Case) {
    let p = case.profile();
    let mut limbs = [0; 1300];
    let table = case.table(&mut limbs);
    let mut cells = [0; 200];
    let word = case.runs(&mut cells);
    let answer = index_of_word::index(p, table, word);
    show::reply(answer);
    show::numbers(&answer.map_or([0; 10], |index| index.0));
    show::end();
}

pub fn word(case: &mut Case) {
    let p = case.profile();
    let mut limbs = [0; 1300];
    let table = case.table(&mut limbs);
    let index = case.index();
    lent::written(case, &mut [MARKED_CELL; 200], |out| {
        word_of_index::word(p, table, index, out)
    });
}

pub fn find(case: &mut Case) {
    let q = case.count();
    let x = case.count();
    let mut cells = [0; 65600];
    show::reply(cells::find(q, x, case.runs(&mut cells)));
    show::end();
}
