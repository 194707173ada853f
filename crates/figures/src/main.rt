// The program applies events to tables, as decide does, and writes the figures of all of them: those of circuits.bin and standard input, or
// those of the pairs of files, a table and its events, that its arguments name.

#![tactic(auto)]

mod day;
mod files;
mod input;
mod lists;
mod pair;
mod print;

fn main(rt: HostRuntime) {
    let count = streams::named::count(&rt);
    if count < 2 {
        input::figures(&rt);
        return;
    }
    if count % 2 == 0 {
        let need = b"each table needs its events: figures TABLE EVENTS ..";
        let _ = streams::named::say(&rt, b"figures", need);
        return;
    }
    day::figures(&rt, count / 2)
}
