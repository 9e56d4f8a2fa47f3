// The way from one plan to another.
ghost use Rattle.std.specs.Prelude.{◌≡◌, length};
ghost use Rattle.search.specs.Plans.{plan_doors, plan_rows};

use search::tables::Tables;

// Two plans of the same keys and doors. The groups of the later that are none of the earlier come up; the other way round they lapse.
#[derive(Clone, Copy)]
pub(crate) struct Between<'a> {
    pub(crate) before: &'a Tables,
    pub(crate) after: &'a Tables,
    ghost keys: { length (plan_rows after.now) ≡ length (plan_rows before.now) },
    ghost doors: { plan_doors after.now ≡ plan_doors before.now },
}
