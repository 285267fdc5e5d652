//! The rows of a store in memory, looked through.

ghost use Rattle.std.specs.Prelude.{◌≡◌, ◌&&◌, filter, nat_le};
ghost use Rattle.std.specs.Option.{option_map};
ghost use Rattle.ft_log.specs.Keys.{same_key};
ghost use Rattle.ft_log.specs.Kept.{kept_for, unexpired};
ghost use Rattle.ft_log.specs.View.{key_of, performed_in};
ghost use Rattle.ft_lives.specs.Memory.{rows_in};

use crate::row::Kept;
use ft_log::Key;

/// Whether a row's expiration lies not before a mark.
fn is_within(row: &Kept, mark: u64) -> bool
    ensures { result ≡ nat_le mark row.now.expiration }
{
    mark <= row.expiration
}

/// Whether a row is held for a key.
fn is_held(row: &Kept, mark: u64, key: &Key) -> bool
    ensures { result ≡ (nat_le mark row.now.expiration && same_key (key_of key.now) (key_of row.now.key)) }
{
    is_within(row, mark) && key.is_same(&row.key)
}

/// The row that is held for a key, if there is one.
pub(crate) fn held<'a>(rows: &'a [Kept], mark: u64, key: &Key) -> Option<&'a Kept>
    ensures { option_map (λ row. performed_in row.now.outcome) result ≡ kept_for (key_of key.now) (unexpired mark (rows_in rows.now)) }
{
    for row in rows {
        if is_held(row, mark, key) {
            return Some(row);
        }
    }
    None
}

/// Takes out the rows whose expiration lies before a mark.
pub(crate) fn take_out(rows: &mut Vec<Kept>, mark: u64)
    ensures { rows.new.items ≡ filter (λ row. nat_le mark row.expiration) rows.old.items }
{
    rows.retain(|row| is_within(row, mark));
}
