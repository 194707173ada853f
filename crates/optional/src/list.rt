// A parameter list is lent as octets: for each parameter its name, how many octets of contents it has in two octets, the low one first, then the
// contents.
ghost use Rattle.std.specs.Prelude.{◌<◌, length, MatchOption};
ghost use Rattle.std.specs.Iterator.{YieldsFirstBy, at_most};
ghost use Rattle.optional.specs.List.{behind, First, item, entries};

// A parameter of a list: its name, and its contents where they are lent.
#[derive(Clone, Copy, PartialEq, Eq, Debug)]
pub struct Entry<'a> {
    pub name: u8,
    pub contents: &'a [u8],
}

// The parameters of a lent list. One that is cut short comes as nothing, and ends the list.
#[derive(Drop)]
pub struct Entries<'a>(pub &'a [u8]);

// Gives the first parameter of a list, and the rest of the list, or nothing where that parameter is cut short.
fn first(list: &[u8]) -> Option<(Entry, &[u8])>
    ensures { MatchOption result (length list.now < behind list.now 0) (λ r. First list.now r.0 r.1.now) }
{
    let (head, rest) = list.split_first_chunk::<3>()?;
    let [name, low, high] = *head;
    let count = usize::from(u16::from_le_bytes([low, high]));
    let (contents, rest) = rest.split_at_checked(count)?;
    Some((Entry { name, contents }, rest))
}

impl<'a> Iterator for Entries<'a> {
    type Item = Option<Entry<'a>>;

    ghost next_gives = { YieldsFirstBy item (λ s. entries s.0.now) };

    ghost remaining = { λ s. at_most (length s.0.now) };

    #[tactic(auto, using(crate::proofs::Entries::entries_none, crate::proofs::Entries::entries_cut, crate::proofs::Entries::entries_first))]
    fn next(&mut self) -> Option<Option<Entry<'a>>> {
        if self.0.is_empty() {
            return None;
        }
        let Some((entry, rest)) = first(self.0) else {
            self.0 = &[];
            return Some(None);
        };
        self.0 = rest;
        Some(Some(entry))
    }
}
