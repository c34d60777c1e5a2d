// Ids among others: the id that starts at a position, and a table in which the place of each id is kept in the first empty slot from the id's bucket on. The ids
// of the slots passed are compared; that is about one for each id, and every one kept only where ids were chosen to fall into one bucket.
#![tactic(auto)]

ghost use Rattle.std.specs.Prelude.{◌≡◌};
ghost use Rattle.text_id_table.specs.Ids.{before, id_at};
ghost use Rattle.text_id_table.specs.Table.{hash_of, slot_of};

use text_line::piece::mark_at;
use text_word::is_word;

// The bytes before the first mark; all of them where there is none.
#[tactic(auto, using(crate::proofs::Ids::before_marked, crate::proofs::Ids::before_unmarked))]
fn before_mark(bytes: &[u8], mark: u8) -> &[u8]
    ensures { result.now ≡ before mark bytes.now }
{
    match mark_at(bytes, mark) {
        Some(end) => &bytes[..end],
        None => bytes,
    }
}

// The id that starts at a position: the bytes before a mark, at most 16.
#[tactic(auto, using(std::proofs::lemmas::List::take_min, std::proofs::lemmas::List::drop_min, text_line::proofs::Parts::part_whole), unfolding(crate::specs::Ids::id_at))]
pub fn id_at(bytes: &[u8], mark: u8, start: usize) -> &[u8]
    ensures { result.now ≡ id_at mark bytes.now start }
{
    let rest = &bytes[start.min(bytes.len())..];
    before_mark(&rest[..rest.len().min(16)], mark)
}

// A number below 2^32 from the bytes of an id, two at a time, since each step waits for the product of the one before; 1640493009 is 40503 squared.
#[tactic(auto, using(crate::proofs::Slots::hash_two, crate::proofs::Slots::hash_last, crate::proofs::Slots::hash_none))]
fn hash_of(id: &[u8]) -> usize
    ensures { result ≡ hash_of id.now }
{
    let mut hash: usize = 0;
    let mut rest = id;
    while let [first, second, others @ ..] = rest {
        let pair = *first as usize * 1640493009 + *second as usize * 40503;
        hash = (hash * 1640493009 + pair) % 4294967296;
        rest = others;
    }
    if let [last] = rest {
        hash = (hash + *last as usize) * 40503 % 4294967296;
    }
    hash
}

// The slot of an id: the first from its bucket on that is empty or leads to the same id; past the last where there is none. A slot holds one more than the
// position at which its id starts, and 0 where it is empty. The first half of the slots are buckets.
// A slot and no Option: `slot_of` of specs/Table.antt gives one past the last, and by the law `slot_within` callers find one within, with which they index.
// An array of places and no map: there is no heap. The 0 of an empty slot and no Option: `slot_of` has it, and callers lend arrays of zeros.
#[tactic(auto, using(crate::proofs::Slots::slot_past, crate::proofs::Slots::slot_start, crate::proofs::Slots::slot_over, crate::proofs::Slots::slot_none, crate::proofs::Slots::slot_same, crate::proofs::Slots::slot_more))]
pub fn slot_of(bytes: &[u8], mark: u8, starts: &[usize], id: &[u8]) -> usize
    ensures { result ≡ slot_of mark bytes.now starts.now id.now }
{
    let buckets = starts.len() / 2;
    if buckets == 0 {
        return starts.len();
    }
    for slot in hash_of(id) % buckets..starts.len() {
        let start = starts[slot];
        if start == 0 || is_word(id, id_at(bytes, mark, start - 1)) {
            return slot;
        }
    }
    starts.len()
}
