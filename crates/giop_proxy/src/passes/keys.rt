//! What cut messages are known by (GIOP 9.4.9), and those whose further fragments are passed over.

ghost use Rattle.std.specs.Prelude.{◌≡◌, position, IfOk};
ghost use Rattle.giop_proxy.specs.PassingMessages.{added, forgotten, is_key, is_passed};

use std::alloc::AllocError;

/// What a cut message is known by.
#[derive(Clone, Copy, Debug)]
pub enum Key {
    /// The request id of a message of 1.2.
    Of12(u32),
    /// The one message of 1.1 that is cut: its Fragments have no request id.
    Of11,
}

/// Of how many messages further fragments are passed over at most.
const MOST: usize = 1024;

/// Whether two keys are one.
pub(crate) fn is_key(first: Key, second: Key) -> bool
    ensures { result ≡ is_key first second }
{
    match (first, second) {
        (Key::Of12(id), Key::Of12(other)) => id == other,
        (Key::Of11, Key::Of11) => true,
        _ => false,
    }
}

/// The index of a key among those whose further fragments are passed over.
fn place(key: Key, passed: &[Key]) -> Option<usize>
    ensures { result ≡ position (λ k. is_key k key) passed.now }
{
    passed.iter().position(|it| is_key(*it, key))
}

/// Whether the further fragments of a key are passed over.
pub(crate) fn is_passed(key: Key, passed: &[Key]) -> bool
    ensures { result ≡ is_passed key passed.now }
{
    place(key, passed).is_some()
}

/// The fragments of a key are not passed over any more.
pub(crate) fn forget(key: Key, passed: &mut Vec<Key>)
    ensures { passed.new.items ≡ forgotten key passed.old.items }
{
    if let Some(at) = place(key, passed.as_slice()) {
        passed.remove(at);
    }
}

/// The fragments of a key are passed over from now on.
pub(crate) fn add(key: Key, passed: &mut Vec<Key>) -> Result<(), AllocError>
    ensures { IfOk result (λ _. passed.new.items ≡ added key passed.old.items) }
{
    if passed.len() < MOST {
        passed.push(key)?;
    }
    Ok(())
}
