//! Letters for object keys.

use giop_text::{digits_of, text_of};
use std::alloc::{AllocError, Global};
use std::collections::BTreeMap;
use std::mem;

/// So many keys have letters at most, and so many octets they have together; others are printed as they are.
const MOST_KEYS: usize = 65_536;

const MOST_OCTETS: u64 = 16_777_216;

/// The object keys that have a letter, in the order in which they came.
#[derive(Drop)]
pub struct Objects {
    alloc: Global,
    letters: BTreeMap<Vec<u8>, u64>,
    octets: u64,
    /// How many keys have a letter at most.
    most: usize,
    /// The lines of those that came last, as they were not printed yet.
    fresh: String,
}

/// The letter of a place, from 0: A to Z, then AA to AZ, BA and so on.
fn letter_of(alloc: Global, place: u64) -> Result<String, AllocError> {
    let mut letters = Vec::new(alloc);
    let mut left = place;
    for _ in 0..14 {
        letters.push(b'A' + (left % 26) as u8)?;
        left /= 26;
        if left == 0 {
            break;
        }
        left -= 1;
    }
    let mut text = String::new(alloc);
    for letter in letters.iter().rev() {
        text.push(char::from(*letter))?;
    }
    Ok(text)
}

impl Objects {
    /// No key so far, and with no letters for any, where they are not wanted.
    pub fn new(alloc: Global, has_letters: bool) -> Objects {
        Objects {
            alloc,
            letters: BTreeMap::new(alloc),
            octets: 0,
            most: if has_letters { MOST_KEYS } else { 0 },
            fresh: String::new(alloc),
        }
    }

    /// Whether one more key of so many octets is remembered.
    fn has_room(&self, octets: usize) -> bool {
        self.letters.len() < self.most && self.octets.saturating_add(octets as u64) <= MOST_OCTETS
    }

    /// Appends the line of a key that has the letter of a place.
    fn put_fresh(&mut self, place: u64, key: &[u8]) -> Result<(), AllocError> {
        let letter = letter_of(self.alloc, place)?;
        let digits = digits_of(self.alloc, key)?;
        let text = text_of(self.alloc, key)?;
        write!(self.fresh, "object {letter} key {digits} {text}\n")
    }

    /// Takes a key that has no letter, and gives it the next one.
    fn insert(&mut self, key: Vec<u8>) -> Result<String, AllocError> {
        let place = self.letters.len() as u64;
        self.put_fresh(place, &key)?;
        self.octets = self.octets.saturating_add(key.len() as u64);
        self.letters.insert(key, place)?;
        letter_of(self.alloc, place)
    }

    /// The letter of a key. None: too many are remembered.
    pub fn letter(&mut self, key: &[u8]) -> Result<Option<String>, AllocError> {
        let key = Vec::from_slice(self.alloc, key)?;
        if let Some(place) = self.letters.get(&key) {
            return Ok(Some(letter_of(self.alloc, *place)?));
        }
        if !self.has_room(key.len()) {
            return Ok(None);
        }
        Ok(Some(self.insert(key)?))
    }

    /// A text behind the lines of the keys that have had a letter since it was asked last.
    pub(crate) fn behind_fresh(&mut self, text: String) -> Result<String, AllocError> {
        if self.fresh.is_empty() {
            return Ok(text);
        }
        let mut whole = self.take_fresh();
        whole.push_str(&text)?;
        Ok(whole)
    }

    /// Those lines.
    fn take_fresh(&mut self) -> String {
        let none = String::new(self.alloc);
        mem::replace(&mut self.fresh, none)
    }
}
