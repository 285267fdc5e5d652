//! The names under which a log keeps its outcomes, and how many of them a client has.

ghost use Rattle.std.specs.Prelude.{◌≡◌, fold};
ghost use Rattle.ft_log.specs.Names.{code_of, fed_name, fed_alike};

use crate::key::Key;
use indexmap::Equivalent;
use std::hash::{Hash, Hasher};

/// A client with its number for a request, or a client alone.
#[derive(PartialEq, Eq, Drop)]
pub(crate) struct Name {
    pub(crate) client_id: Vec<u8>,
    pub(crate) number: Option<i32>,
}

/// A name that is looked up, its client lent.
#[derive(Clone, Copy, PartialEq, Eq)]
pub(crate) struct Lent<'n> {
    pub(crate) client_id: &'n [u8],
    pub(crate) number: Option<i32>,
}

impl Equivalent<Name> for Lent<'_> {
    ghost use Rattle.ft_log.specs.Names.{is_named, equal_alike, hashed_alike};

    ghost equivalent = { λ q. is_named q.client_id.now q.number };

    ghost respects_hash = { λ q. hashed_alike q.client_id.now q.number };

    ghost respects_eq = { λ q. equal_alike q.client_id.now q.number };

    fn equivalent(&self, name: &Name) -> bool {
        self.client_id == name.client_id.as_slice() && self.number == name.number
    }
}

/// A number of 64 bits for each number of 32 bits, and one for none.
fn code_of(number: Option<i32>) -> u64
    ensures { result ≡ code_of number }
{
    match number {
        Some(n) => u64::from(n.cast_unsigned()),
        None => 0x1_0000_0000,
    }
}

impl Hash for Name {
    ghost hash_input = { λ n. fed_name n.client_id.items n.number };

    ghost respects_eq = { λ x y h. fed_alike x.client_id.items y.client_id.items x.number y.number h };

    fn hash<H: Hasher>(&self, state: &mut H) {
        state.write_u64(code_of(self.number));
        state.write(self.client_id.as_slice());
    }
}

impl Hash for Lent<'_> {
    ghost hash_input = { λ n. fed_name n.client_id.now n.number };

    ghost respects_eq = { λ x y h. fed_alike x.client_id.now y.client_id.now x.number y.number h };

    fn hash<H: Hasher>(&self, state: &mut H) {
        state.write_u64(code_of(self.number));
        state.write(self.client_id);
    }
}
