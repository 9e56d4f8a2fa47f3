// Which keys and doors touch a group.
ghost use Rattle.std.specs.Prelude.{◌≡◌, ℕ, ◌<◌, ◌≤◌, ◌⊎◌, length, MatchBool};
ghost use Rattle.masks.specs.Masks.{Has};
ghost use Rattle.groups.specs.Plans.{IsGroup};
ghost use Rattle.difference.specs.Changes.{ByColumn, ByKey, Lacks, Losing, OnlyIn, Shared, Touched};

use crate::comparison::Comparison;
use crate::rows::Rows;
use groups::group::Group;
use masks::first;
use masks::members::Members;

// The numbers below n that a has and b lacks. Here and below n is a plain number with a bound, as in the search.
pub(crate) fn only(a: u64, b: u64, n: usize) -> u64
    requires { n ≤ 64 }
    ensures { OnlyIn a b n result }
{
    a & !b & first(n as u8)
}

// The numbers below n that all rows of the set have. The search has the like of its 64 rows; one function for both would be a public one,
// and no public call may ask that the set ends where the rows do.
fn shared(rows: &[u64], n: usize, set: u64) -> u64
    requires within { (k : ℕ) → Has set k → k < length rows.now }
    requires places { n ≤ 64 }
    ensures { Shared rows.now n set result }
{
    let mut left = first(n as u8);
    for k in Members::of(set) {
        left &= rows[k];
    }
    left
}

// Does a key of the group touch it? It opened `was` and opens `is`, and `common` has the doors that all keys of the group opened before.
fn key_touches(was: u64, is: u64, common: u64, doors: u64) -> bool
    ensures { MatchBool result (Lacks doors was ⊎ Lacks common is) (Lacks doors was ⊎ Lacks common is → ⊥) }
{
    (doors & !was | common & !is) != 0
}

impl<'a> Rows<'a> {
    // The rows that had one of the numbers below n before and have it no more.
    pub(crate) fn losing(self, n: usize) -> u64
        requires { n ≤ 64 }
        ensures { Losing self.entry.before.now self.entry.after.now n (length self.entry.before.now) result }
    {
        let mut set = 0;
        for (k, (was, is)) in self.before.iter().zip(self.after.iter()).enumerate() {
            if only(*was, *is, n) != 0 {
                set |= 1 << k;
            }
        }
        set
    }

    // The same rows with the two plans exchanged.
    pub(crate) fn exchanged(self) -> Rows<'a>
        ensures before { result.before.now ≡ self.entry.after.now }
        ensures after { result.after.now ≡ self.entry.before.now }
    {
        Rows {
            before: self.after,
            after: self.before,
        }
    }
}

impl<'a> Comparison<'a> {
    // Does a key below u touch the group? Only those that changed can.
    fn touched_by_key(self, u: usize, g: Group) -> bool
        requires keys { u ≤ length self.rows.before.now }
        requires group { IsGroup self.rows.after.now (length self.columns.before.now) g }
        ensures { MatchBool result (ByKey self.entry.rows.before.now self.entry.rows.after.now (length self.entry.columns.before.now) u g) (ByKey self.entry.rows.before.now self.entry.rows.after.now (length self.entry.columns.before.now) u g → ⊥) }
    {
        let asked = g.keys & self.changed.keys & first(u as u8);
        if asked == 0 {
            return false;
        }
        let common = shared(self.rows.before, self.columns.before.len(), g.keys);
        for k in Members::of(asked) {
            if key_touches(self.rows.before[k], self.rows.after[k], common, g.doors) {
                return true;
            }
        }
        false
    }

    // Does a door below v touch the group, by the columns? Only those that changed can. No twin of `touched_by_key`: a key touches a group by a door
    // that it gained or lost, a door only by a key that it lost.
    fn touched_by_door(self, v: usize, g: Group) -> bool
        requires doors { v ≤ length self.columns.before.now }
        requires within { (d : ℕ) → Has g.doors d → d < length self.columns.before.now }
        ensures { MatchBool result (ByColumn self.entry.columns.before.now self.entry.columns.after.now (length self.entry.rows.before.now) v g) (ByColumn self.entry.columns.before.now self.entry.columns.after.now (length self.entry.rows.before.now) v g → ⊥) }
    {
        let asked = g.doors & self.changed.doors & first(v as u8);
        if asked == 0 {
            return false;
        }
        let common = shared(self.columns.before, self.rows.before.len(), g.doors);
        for d in Members::of(asked) {
            if common & !self.columns.after[d] != 0 {
                return true;
            }
        }
        false
    }

    // Does a key below u or a door below v touch the group?
    pub(crate) fn known(self, u: usize, v: usize, g: Group) -> bool
        requires keys_to { u ≤ length self.rows.before.now }
        requires doors_to { v ≤ length self.columns.before.now }
        requires group { IsGroup self.rows.after.now (length self.columns.before.now) g }
        ensures { MatchBool result (Touched self.entry.rows.before.now self.entry.rows.after.now (length self.entry.columns.before.now) u v g) (Touched self.entry.rows.before.now self.entry.rows.after.now (length self.entry.columns.before.now) u v g → ⊥) }
    {
        self.touched_by_key(u, g) || self.touched_by_door(v, g)
    }
}
