// Two plans of the same keys and doors, one before a change and one after it.
ghost use Rattle.std.specs.Prelude.{◌≡◌, length};
ghost use Rattle.search.specs.Plans.{plan_doors, plan_rows};

use search::tables::Tables;

#[derive(Clone, Copy)]
pub struct TwoPlans {
    pub(crate) before: Tables,
    pub(crate) after: Tables,
    ghost keys: { length (plan_rows after) ≡ length (plan_rows before) },
    ghost doors: { plan_doors after ≡ plan_doors before },
}
