// The records of a case, given to the entries that are under test: 64 of them to the one by value, any other number to the one that they
// are lent to; and those of a case that is not to be checked, whatever their number, to the one that makes no check.
ghost use Rattle.std.specs.Prelude.{◌≡◌, true, false};
ghost use Rattle.call.specs.Events.{half_of};
ghost use Rattle.call_table.specs.Table.{ran_of, table_of, ran_fit_of, table_fit_of};

use call::Call;
use call_table::Done;
use events::NodeAct;

pub(crate) fn handle(checked: bool, records: &mut [Call], key: u32, asked: NodeAct) -> Done
    ensures checked { checked ≡ true → (result ≡ (ran_of (half_of asked.node) records.old key asked.act).done)
        × (records.new ≡ table_of (half_of asked.node) records.old key asked.act) }
    ensures unchecked { checked ≡ false → (result ≡ (ran_fit_of (half_of asked.node) records.old key asked.act).done)
        × (records.new ≡ table_fit_of (half_of asked.node) records.old key asked.act) }
{
    if !checked {
        return call_table::handle_fit(records, key, asked);
    }
    if let Ok(sixty) = <[Call; 64]>::try_from(&*records) {
        let held = call_table::handle64(sixty, key, asked);
        records.copy_from_slice(&held.table);
        return held.done;
    }
    call_table::handle(records, key, asked)
}
