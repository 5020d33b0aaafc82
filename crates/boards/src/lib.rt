// The ledger's entries by their Subject's serial number.
#![tactic(auto)]

ghost use Rattle.std.specs.Prelude.{◌≡◌};
ghost use Rattle.rules.specs.Limits.{term_limit};
ghost use Rattle.tables.specs.Columns.{one_more, tables_in};
ghost use Rattle.boards.specs.Linked.{Falls, entry_of};

use tables::Tables;

// The lists of the buckets are indices in the tables: no heap. The place of an entry with a serial number. The walk
// passes entries of its bucket alone, at most 64 where each serial number is linked once: law lists-short of
// proofs/Bound.antt.
pub fn entry_of(tables: &Tables, serial: u16) -> Option<usize>
    requires { Falls (tables_in tables.now).boards term_limit }
    ensures { one_more result ≡ entry_of (tables_in tables.now).boards serial }
{
    let mut next = tables.newest_of(serial as usize % tables::BUCKETS);
    while let Some(place) = next {
        if tables.serial_of(place) == serial {
            return next;
        }
        next = tables.earlier_of(place);
    }
    None
}
