// Two plans compared.
ghost use Rattle.std.specs.Prelude.{◌≡◌, length};
ghost use Rattle.search.specs.Plans.{plan_doors, plan_rows};
ghost use Rattle.difference.specs.Changes.{Compared, Marked};

use crate::rows::Rows;
use search::tables::Tables;

// The keys that gained or lost a door, and the doors that lost a key.
#[derive(Clone, Copy)]
pub(crate) struct Changed {
    pub(crate) keys: u64,
    pub(crate) doors: u64,
}

// Two plans by their rows and by their columns, the keys and doors that can touch a group, and the later plan, and the same turned, as the search
// reads them.
#[derive(Clone, Copy)]
pub(crate) struct Comparison<'a> {
    pub(crate) rows: Rows<'a>,
    pub(crate) columns: Rows<'a>,
    pub(crate) changed: Changed,
    pub(crate) later: &'a Tables,
    pub(crate) turned: &'a Tables,
    ghost plans: { Compared rows.before.now columns.before.now rows.after.now columns.after.now },
    ghost marked: { Marked rows.before.now columns.before.now rows.after.now columns.after.now changed.keys changed.doors },
    ghost later_rows: { plan_rows later.now ≡ rows.after.now },
    ghost later_doors: { plan_doors later.now ≡ length columns.before.now },
    ghost turned_rows: { plan_rows turned.now ≡ columns.after.now },
    ghost turned_doors: { plan_doors turned.now ≡ length rows.before.now },
}
