// Takes ids out of sorted lists.
ghost use Rattle.std.specs.Prelude.{◌≡◌, true};
ghost use Rattle.ts_index.specs.Numbers.{AreAscending, AreSorted, has_id, without_all, cleared};

use ts_sample::Id;

// Removes these ids from a sorted list, if `id` is one of its ids. They are searched for only in a list that has `id`,
// so a caller that comes with each of them goes through the list once.
pub(crate) fn take(list: &mut Vec<Id>, id: Id, ids: &[Id])
    requires ascending { AreAscending list.old.items }
    requires sorted { AreSorted ids.now }
    requires among { has_id id.0 ids.now ≡ true }
    ensures { list.new.items ≡ cleared id ids.now list.old.items }
{
    let Ok(place) = list.binary_search(&id) else {
        return;
    };
    if ids.len() == 1 {
        let _id = list.remove(place);
    } else {
        remove_all(list, ids);
    }
}

// Removes these ids, in one pass over the list.
fn remove_all(list: &mut Vec<Id>, ids: &[Id])
    requires { AreSorted ids.now }
    ensures { list.new.items ≡ without_all ids.now list.old.items }
{
    list.retain(|id| !is_among(ids, *id));
}

// Whether an id is one of these, if they are sorted.
fn is_among(ids: &[Id], id: Id) -> bool
    ensures { AreSorted ids.now → result ≡ has_id id.0 ids.now }
{
    ids.binary_search(&id).is_ok()
}
