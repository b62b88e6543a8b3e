// Lists a small code: reads one line, q m x, and prints what document 01 says. As many bytes are read as
// decide it.
#![tactic(auto)]

fn main() {
    let mut read = [0u8; code_as_text::DECIDING];
    let n = io::read_full(0, &mut read);
    let mut text = [0u8; code_as_text::MOST_BYTES];
    let count = code_as_text::put_for(&read, n, &mut text);
    io::write_all(1, &text[..count]);
}
