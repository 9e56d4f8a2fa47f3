// The bodies: their pairs, and a judge for each rule.
ghost use Rattle.std.specs.Prelude.{◌≡◌, ◌+◌, ◌*◌, ◌^◌, ◌<◌, length, position, IfSome};
ghost use Rattle.std.specs.Iterator.{YieldsFirst, item_count};
ghost use Rattle.faults.specs.Causes.{told};
ghost use Rattle.faults.specs.Faults.{file_cause};
ghost use Rattle.weekly.specs.Pairs.{pairs_of, is_pair, above, InRange};
ghost use Rattle.weekly.specs.Body.{pair_ok, pairs_fault, first_bad_byte, text_fault, apart_fault, both_fault, bodies_fault};

use crate::judge::Parts;
use crate::placed::Body;
use faults::weekly::FileFault;
use pairs::pair::Pair;

// The pairs of a body that are left, each a key byte and then a door byte.
#[derive(Drop)]
pub(crate) struct Pairs<'a>(pub(crate) &'a [u8]);

impl<'a> Iterator for Pairs<'a> {
    type Item = Pair;

    ghost next_gives = { YieldsFirst (λ s. pairs_of s.0.now) };

    ghost remaining = { item_count (λ s. pairs_of s.0.now) };

    #[tactic(auto, using(crate::proofs::Bodies::pairs_none, crate::proofs::Bodies::pairs_more))]
    fn next(&mut self) -> Option<Pair> {
        let [key, door, rest @ ..] = self.0 else {
            return None;
        };
        self.0 = rest;
        Some(Pair {
            key: *key,
            door: *door,
        })
    }
}

// A pair has a key and a door below 64, and is above the last one.
fn pair_ok(last: Option<Pair>, pair: Pair) -> bool
    requires { IfSome last InRange }
    ensures { result ≡ pair_ok (above last) pair.key pair.door }
{
    pair.key < 64 && pair.door < 64 && last < Some(pair)
}

// The index of the first byte of a note that is not 32 to 126, if there is one.
pub(crate) fn bad_byte(note: &[u8]) -> Option<usize>
    ensures is { result ≡ first_bad_byte 0 note.now }
    ensures within { IfSome result (λ i. i < length note.now) }
{
    note.iter().position(|b| *b < 32 || *b > 126)
}

impl<'a> Body<'a> {
    // Each pair is above the last.
    fn ascending(self) -> Result<(), FileFault>
        ensures { told file_cause result ≡ pairs_fault 0 self.entry.place self.entry.bytes.now }
    {
        let mut last = None;
        for (i, pair) in Pairs(self.bytes).enumerate() {
            if !pair_ok(last, pair) {
                return Err(FileFault::Body {
                    place: self.place + 2 * i,
                });
            }
            last = Some(pair);
        }
        Ok(())
    }

    // The bytes are those of a note.
    #[tactic(auto, using(crate::proofs::Bodies::bad_along))]
    fn text(self) -> Result<(), FileFault>
        ensures { told file_cause result ≡ text_fault self.entry.place self.entry.bytes.now }
    {
        match bad_byte(self.bytes) {
            Some(at) => Err(FileFault::Body {
                place: self.place + at,
            }),
            None => Ok(()),
        }
    }

    // The index of the pair among those of the body, if it stands there.
    #[tactic(auto, using(crate::proofs::Bodies::pairs_count))]
    fn index_of(self, pair: Pair) -> Option<usize>
        ensures is { result ≡ position (is_pair pair) (pairs_of self.entry.bytes.now) }
        ensures within { IfSome result (λ i. 2 * i < length self.entry.bytes.now) }
    {
        Pairs(self.bytes).position(|other| other == pair)
    }

    // The pair does not stand in the body.
    #[tactic(auto, using(crate::proofs::Bodies::apart_is))]
    fn apart(self, pair: Pair) -> Result<(), FileFault>
        ensures { told file_cause result ≡ apart_fault pair.key pair.door self.entry.place self.entry.bytes.now }
    {
        match self.index_of(pair) {
            Some(i) => Err(FileFault::Both {
                place: self.place + 2 * i,
            }),
            None => Ok(()),
        }
    }

    // No pair of the additions stands in the body, that of the removals.
    #[tactic(auto, using(crate::proofs::Bodies::both_apart))]
    fn both(self, added: &[u8]) -> Result<(), FileFault>
        ensures { told file_cause result ≡ both_fault self.entry.place self.entry.bytes.now added.now }
    {
        for pair in Pairs(added) {
            self.apart(pair)?;
        }
        Ok(())
    }
}

// The bodies in file order, and then the pairs that stand in both.
#[tactic(auto, unfolding(crate::specs::Body::bodies_fault))]
pub(crate) fn bodies(parts: &Parts) -> Result<(), FileFault>
    requires { parts.now.first + length parts.now.added.now + length parts.now.note.now + length parts.now.removed.now < 2 ^ 32 }
    ensures { told file_cause result ≡ bodies_fault parts.now.first parts.now.added.now parts.now.note.now parts.now.removed.now }
{
    let Parts {
        first,
        added,
        note,
        removed,
    } = *parts;
    let added = Body {
        bytes: added,
        place: first,
    };
    let note = Body {
        bytes: note,
        place: first + added.bytes.len(),
    };
    let removed = Body {
        bytes: removed,
        place: note.place + note.bytes.len(),
    };
    added.ascending()?;
    note.text()?;
    removed.ascending()?;
    removed.both(added.bytes)
}
