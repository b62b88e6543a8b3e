// The calls on streams.
use crate::lent;
use script::Case;
use script::show::MARKED_CELL;

pub fn write(case: &mut Case) {
    let p = case.profile();
    let mut limbs = [0; 1300];
    let table = case.table(&mut limbs);
    let mut bytes = [0; 1200];
    let messages = case.runs(&mut bytes);
    let bits = case.count();
    lent::written(case, &mut [MARKED_CELL; 1200], |out| {
        write_stream::write(p, table, messages, bits, out)
    });
}

pub fn read(case: &mut Case) {
    let p = case.profile();
    let mut limbs = [0; 1300];
    let table = case.table(&mut limbs);
    let mut cells = [0; 1200];
    let stream = case.runs(&mut cells);
    lent::written(case, &mut [MARKED_CELL; 1200], |out| {
        read_stream::read(p, table, stream, out)
    });
}

pub fn join(case: &mut Case) {
    let p = case.profile();
    let mut first_cells = [0; 1200];
    let first = case.runs(&mut first_cells);
    let mut second_cells = [0; 1200];
    let second = case.runs(&mut second_cells);
    lent::written(case, &mut [MARKED_CELL; 1200], |out| {
        join_streams::join(p, first, second, out)
    });
}

pub fn turn(case: &mut Case) {
    let p = case.profile();
    let mut cells = [0; 1200];
    let stream = case.runs(&mut cells);
    lent::written(case, &mut [MARKED_CELL; 1200], |out| {
        join_streams::turn(p, stream, out)
    });
}
