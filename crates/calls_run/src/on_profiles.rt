// The calls on published profiles and rates.
use script::{Case, show};

pub fn published(case: &mut Case) {
    let answer = catalogue::published_profile(case.count());
    show::reply(answer);
    let row = answer.unwrap_or_default();
    for n in [row.q, row.x, row.m, row.s] {
        show::count(n);
    }
    show::end();
}

pub fn rate(case: &mut Case) {
    let p = case.profile();
    let mut limbs = [0; 1300];
    let table = case.table(&mut limbs);
    let answer = catalogue::rate_of_words(p, table, case.count());
    show::reply(answer);
    let rate = answer.unwrap_or_default();
    show::count(rate.bits);
    show::count(rate.cells);
    show::end();
}
