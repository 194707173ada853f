// The program plays both sides of every line of document 01, and of what document 02 adds: a script on standard input is written out again with what
// each row answers after it.

#![tactic(auto)]

mod asked;
mod field;
mod page;
mod part;
mod played;
mod route_table;
mod scene;
mod script;

use page::Page;

// The script has room for so many letters.
const LETTERS: usize = 128 * 1024;

fn main(rt: HostRuntime) {
    let mut script = [0; LETTERS];
    let taken = streams::fill(&mut rt.stdin(), &mut script);
    scene::play(Page::new(rt.stdout()), &script[..taken.octets]);
}
