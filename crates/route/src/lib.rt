#![tactic(auto)]

ghost use Rattle.std.specs.Prelude.{◌≡◌, ◌+◌, ◌≤◌, length};
ghost use Rattle.std.specs.Option.{IfSome};
ghost use Rattle.entries.specs.Table.{ENTRIES, need_list};
ghost use Rattle.route.specs.Way.{earliest_way};
ghost use Rattle.route.specs.Tries.{tries};
ghost use Rattle.route.specs.passes.Search.{search_from, tries_from, held_by, is_idle, fails_like, FailedLike};
ghost use Rattle.entries.specs.passes.Entries.{may_have};
ghost use Rattle.route.specs.Route.{byte_for, eight_bytes, lab_route_of, lab_route_from};
ghost use Rattle.route.specs.passes.Partial.{routed_from, routed_of};

use entries::{ENTRIES, EntryTable, Need, Needs};

// What a search found, and how many tries it made.
#[derive(Clone, Copy)]
pub struct Search<T> {
    pub found: T,
    pub tries: u32,
}

// What is noted of an entry that was tried in vain: whether it makes no difference to the needs after this one, and how many tries came after it.
#[derive(Clone, Copy)]
struct Failure {
    idle: bool,
    tries: u32,
}

// Whether it makes no difference to the needs after this one that it is given entry e, which it may have.
fn is_idle(table: EntryTable, held: [u16; ENTRIES], need: Need, after: &[Need], e: usize) -> bool
    ensures { result ≡ is_idle table held need after.now e }
{
    if entries::holder_at(held, e) != 0 {
        return true;
    }
    !after
        .iter()
        .any(|&other| entries::serves_other(table, need, e, other))
}

// Whether e fails as f did: two that make no difference always do, two that make one where they serve the same.
// Not inlined: it is asked only after a failure, and the loop of `place` is shorter without it.
#[inline(never)]
fn fails_like(
    table: EntryTable,
    after: &[Need],
    f_idle: bool,
    e_idle: bool,
    f: usize,
    e: usize,
) -> bool
    ensures { result ≡ fails_like table after.now f_idle e_idle f e }
{
    if e_idle {
        return f_idle;
    }
    if f_idle {
        return false;
    }
    !after
        .iter()
        .any(|&other| entries::differ_for(table, f, e, other))
}

// The tries after an entry that failed as e does, where there is such an entry among those noted.
fn failed_like(
    noted: &[Option<Failure>],
    table: EntryTable,
    held: [u16; ENTRIES],
    need: Need,
    after: &[Need],
    e: usize,
) -> Option<u32>
    ensures { IfSome result (λ tries. FailedLike table after.now noted.now (is_idle table held need after.now e) e tries) }
{
    if noted.iter().all(|failure| failure.is_none()) {
        return None;
    }
    let idle = is_idle(table, held, need, after, e);
    for (f, noted_f) in noted.iter().enumerate() {
        if let Some(failure) = noted_f {
            if fails_like(table, after, failure.idle, idle, f, e) {
                return Some(failure.tries);
            }
        }
    }
    None
}

// The earliest way for the needs that are left, the first of them number `at`, that gives no entry held by another net, and the tries. They are one
// fewer at each call. Where an entry has failed, another that is like it to the needs after this one fails after as many tries, and is not searched.
#[tactic(auto, using(crate::proofs::Placing::placing))]
fn place(
    table: EntryTable,
    rest: &[Need],
    at: usize,
    held: [u16; ENTRIES],
) -> Search<Option<[u8; 8]>>
    requires { at + length rest.now ≤ 8 }
    ensures found { result.found ≡ routed_from at (search_from (may_have table) held_by ENTRIES held rest.now) }
    ensures counted { result.tries ≡ tries_from (may_have table) held_by ENTRIES held rest.now }
{
    let [need, after @ ..] = rest else {
        return Search {
            found: Some([255; 8]),
            tries: 0,
        };
    };
    let need = *need;
    let mine = entries::holder(need);
    let mut tries: u32 = 0;
    let mut noted: [Option<Failure>; ENTRIES] = [None; ENTRIES];
    for e in 0..ENTRIES {
        if entries::may_have(table, held, need, e) {
            if let Some(again) = failed_like(&noted[..e], table, held, need, after, e) {
                tries += 1 + again;
                continue;
            }
            let mut more = held;
            more[e] = mine;
            let search = place(table, after, at + 1, more);
            tries += 1 + search.tries;
            if let Some(mut way) = search.found {
                way[at] = e as u8;
                return Search {
                    found: Some(way),
                    tries,
                };
            }
            let idle = is_idle(table, held, need, after, e);
            noted[e] = Some(Failure {
                idle,
                tries: search.tries,
            });
        }
    }
    Search { found: None, tries }
}

// The earliest way for a LAB's needs, the entry of each and 255 past them, and the tries.
pub fn first_way(table: EntryTable, needs: Needs) -> Search<Option<[u8; 8]>>
    ensures found { result.found ≡ routed_of (earliest_way table (need_list needs)) }
    ensures counted { result.tries ≡ tries table (need_list needs) }
{
    place(table, needs.as_slice(), 0, [0; ENTRIES])
}

// The byte of need j of the role: the entry that it has, and 255 where there is no such need.
#[tactic(auto, using(crate::proofs::Bytes::passing))]
fn byte_for(needs: &[Need], entries: [u8; 8], role: u8, j: usize) -> u8
    ensures { result ≡ byte_for needs.now entries role j }
{
    let mut left = j;
    for i in 0..needs.len().min(entries.len()) {
        if needs[i].role == role {
            if left == 0 {
                return entries[i];
            }
            left -= 1;
        }
    }
    255
}

// The route bytes: two clk, two ena, two aclr, sclr, sload.
fn eight_bytes(needs: &[Need], entries: [u8; 8]) -> [u8; 8]
    ensures { result ≡ eight_bytes needs.now entries }
{
    [
        byte_for(needs, entries, 0, 0),
        byte_for(needs, entries, 0, 1),
        byte_for(needs, entries, 1, 0),
        byte_for(needs, entries, 1, 1),
        byte_for(needs, entries, 2, 0),
        byte_for(needs, entries, 2, 1),
        byte_for(needs, entries, 3, 0),
        byte_for(needs, entries, 4, 0),
    ]
}

// The eight route bytes of a LAB with these needs, none where it has no way, and the tries.
#[tactic(auto, using(crate::proofs::Bytes::lab_no_way))]
pub fn lab_route(table: EntryTable, needs: Needs) -> Search<Option<[u8; 8]>>
    ensures found { lab_route_from result.found ≡ lab_route_of (need_list needs) (earliest_way table (need_list needs)) }
    ensures counted { result.tries ≡ tries table (need_list needs) }
{
    let Search { found, tries } = first_way(table, needs);
    let Some(entries) = found else {
        return Search { found: None, tries };
    };
    let bytes = eight_bytes(needs.as_slice(), entries);
    Search {
        found: Some(bytes),
        tries,
    }
}
