// How often small rule sets stay undefined: the handbook's table, a line for each of the sizes 1, 2 and 3 (02, order 12), on standard output. Nothing is read.
// `put_table` has the contract of what is written; no contract can say that the system writes it, so `main` has none: it is safe, it ends, and stored tests
// hold its words.
#![tactic(auto)]

mod lines;

fn main(rt: HostRuntime) {
    let mut text = [0u8; lines::MOST_TEXT];
    let n = lines::put_table(&mut text);
    if rt.stdout().write_all(&text[..n]).is_ok() {
        return;
    }
    // What standard error doesn't take is let go: there is nowhere else to say it.
    let _ = rt.stderr().write_all(
        b"census: the table can't be written to standard output; is the disk full?\n",
    );
}
