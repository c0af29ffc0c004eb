#![tactic(auto)]

ghost use Rattle.std.specs.Prelude.{◌≡◌, get_or};
ghost use Rattle.entries.specs.Table.{serves, no_needs, need_list, with_need};
ghost use Rattle.entries.specs.passes.Entries.{holder, may_have, serves_other, differ_for};

use sheet::Signal;

// What a register asks of its LAB: an entry of this role for this signal.
#[derive(Clone, Copy)]
pub struct Need {
    pub role: u8,
    pub signal: Signal,
}

// The needs of a LAB in order: the first `count` of the list.
#[derive(Clone, Copy)]
pub struct Needs {
    pub count: usize,
    pub list: [Need; 8],
}

// How many control entries a LAB has at most.
pub const ENTRIES: usize = 8;

// For each entry, whether it serves clk, ena, aclr, sclr, sload. A board with fewer entries has rows that serve nothing.
pub type EntryTable = [[bool; 5]; ENTRIES];

impl Needs {
    pub fn none() -> Self
        ensures { result ≡ no_needs }
    {
        Needs {
            count: 0,
            list: [Need {
                role: 0,
                signal: Signal::UNCONNECTED,
            }; 8],
        }
    }

    // One need more, where there is room for it.
    #[tactic(auto, unfolding(crate::specs::Table::with_need))]
    pub fn with(self, need: Need) -> Self
        ensures { result ≡ with_need self need }
    {
        let count = self.count;
        if count < 8 {
            let mut list = self.list;
            list[count] = need;
            return Needs {
                count: count + 1,
                list,
            };
        }
        self
    }

    // Those that there are.
    pub fn as_slice(&self) -> &[Need]
        ensures { result.now ≡ need_list self.now }
    {
        &self.list[..self.count.min(8)]
    }
}

// Whether entry e serves the role.
pub fn serves(table: EntryTable, e: usize, role: u8) -> bool
    ensures { result ≡ serves table e role }
{
    let Some(row) = table.get(e) else {
        return false;
    };
    row.get(usize::from(role)).copied().unwrap_or(false)
}

// What marks an entry that the need has: one more than the number of its net, so never 0.
pub fn holder(need: Need) -> u16
    ensures { result ≡ holder need }
{
    let signal = need.signal;
    signal.net() + 1
}

// What marks entry e, 0 where it is free.
pub fn holder_at(held: [u16; ENTRIES], e: usize) -> u16
    ensures { result ≡ get_or held e 0 }
{
    held.get(e).copied().unwrap_or(0)
}

// Whether the need may have entry e: it serves the role, and no need of another net has it.
pub fn may_have(table: EntryTable, held: [u16; ENTRIES], need: Need, e: usize) -> bool
    ensures { result ≡ may_have table held need e }
{
    let mark = holder_at(held, e);
    let mine = holder(need);
    serves(table, e, need.role) & ((mark == 0) | (mark == mine))
}

// Whether entry e serves the other need, which is of another net.
pub fn serves_other(table: EntryTable, need: Need, e: usize, other: Need) -> bool
    ensures { result ≡ serves_other table need e other }
{
    let mine = need.signal;
    let its = other.signal;
    (its.net() != mine.net()) & serves(table, e, other.role)
}

// Whether one of the entries f and e serves the need and the other does not.
pub fn differ_for(table: EntryTable, f: usize, e: usize, need: Need) -> bool
    ensures { result ≡ differ_for table f e need }
{
    let second = serves(table, e, need.role);
    if serves(table, f, need.role) {
        return !second;
    }
    second
}
