// The keys of the rows of one kind.
ghost use Rattle.std.specs.Prelude.{◌≡◌, ◌≤◌, cond, [], map, vec_len, IfOk};
ghost use Rattle.forms.specs.Things.{spot};
ghost use Rattle.rows.specs.Rows.{placed_row};
ghost use Rattle.naming.specs.Keys.{names_of, keys_of, place, declared};

use forms::Name;
use rows::{Key, Kind, Row};
use std::alloc::{AllocError, Global};

// In the order of the rows. A list and no map: the number of a thing is the place of its key.
#[derive(Drop)]
pub struct Keys<'a> {
    pub list: Vec<Key<'a>>,
}

impl<'a> Keys<'a> {
    pub(crate) fn of(rows: &[Row<'a>], kind: Kind, heap: Global) -> Result<Keys<'a>, AllocError>
        ensures { IfOk result (λ ks. names_of ks ≡ keys_of kind (map placed_row rows.now)) }
    {
        let list = rows
            .iter()
            .filter(|r| r.is_of(kind))
            .map(|r| r.key())
            .collect(heap)?;
        Ok(Keys { list })
    }

    // The place of the first such key; as many as there are keys where there is none.
    pub(crate) fn place(&self, key: Key) -> usize
        ensures value { result ≡ place (names_of self.now) key.entry.first.now key.entry.second.now }
        ensures bound { result ≤ vec_len self.now.list }
    {
        self.list
            .iter()
            .position(|k| *k == key)
            .unwrap_or(self.list.len())
    }

    // The number of the thing with this name.
    pub fn number(&self, name: Name<'a>) -> usize
        ensures { result ≡ place (names_of self.now) (spot name.entry).1 [] }
    {
        self.place(Key::from(name))
    }

    pub(crate) fn has(&self, key: Key) -> bool
        ensures { result ≡ declared (names_of self.now) key.entry.first.now key.entry.second.now }
    {
        self.list.contains(&key)
    }

    // The offset of a name that no key has.
    pub(crate) fn unknown(&self, name: Name<'a>) -> Option<usize>
        ensures { result ≡ cond (declared (names_of self.now) (spot name.entry).1 []) None (Some (spot name.entry).0) }
    {
        (!self.has(Key::from(name))).then_some(name.at)
    }
}
