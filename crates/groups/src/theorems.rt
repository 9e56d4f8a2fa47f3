// What holds of groups and of their lists, as theorems.
ghost use Rattle.groups.specs.Theorems.{CarriesOut, ListsTheChanges, ListsTheGroups, OneSideDecides, OnlyOneList, ThereAndBack, TurnedGroups};

// The list of a plan's groups has them all, each once, ascending.
pub fn lists_the_groups() -> u8
    ensures { ListsTheGroups }
{
    0
}

// The lists of the new and of the lapsed groups have them all, each once, ascending.
pub fn lists_the_changes() -> u8
    ensures { ListsTheChanges }
{
    0
}

// An ascending list of the same groups is the same list.
pub fn only_one_list() -> u8
    ensures { OnlyOneList }
{
    0
}

// Two groups of a plan with the same keys, or with the same doors, are the same.
pub fn one_side_decides() -> u8
    ensures { OneSideDecides }
{
    0
}

// The groups of the turned plan are the turned groups.
pub fn turned_groups() -> u8
    ensures { TurnedGroups }
{
    0
}

// What lapses from one plan to another is what is new the other way, and nothing is new or lapses where nothing changes.
pub fn there_and_back() -> u8
    ensures { ThereAndBack }
{
    0
}

// What a batch does to the rows of a plan, pair by pair.
pub fn carries_out() -> u8
    ensures { CarriesOut }
{
    0
}
