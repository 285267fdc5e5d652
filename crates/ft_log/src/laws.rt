//! Laws over the definitions. Each is ensured by a function with an empty body, which a crate above
//! calls where a proof of its own rests on the law.

ghost use Rattle.ft_log.specs.Laws.{DistinctKeysDiffer, EntriesAreFound, FoundIsAnEntry, IdsAreClean, IdsAreShort, RoomIsBelowBoth, SameKeysAreEqual};

/// Two keys are one exactly where they are equal.
pub fn same_keys_are_equal()
    ensures { SameKeysAreEqual }
{}

/// In a list of distinct keys a later key is not an earlier one.
pub fn distinct_keys_differ()
    ensures { DistinctKeysDiffer }
{}

/// Where keys are distinct, each entry's outcome is found by its key, and what is found is an entry's.
pub fn entries_are_found()
    ensures found { EntriesAreFound }
    ensures entry { FoundIsAnEntry }
{}

/// There is room for another key exactly where neither the capacity nor its client's share is reached.
pub fn room_is_below_both()
    ensures { RoomIsBelowBoth }
{}

/// The repository id of each system exception has no NUL, and at most 45 octets.
pub fn repository_ids_are_clean()
    ensures clean { IdsAreClean }
    ensures bound { IdsAreShort }
{}
