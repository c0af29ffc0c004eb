#![tactic(auto)]

ghost use Rattle.std.specs.Prelude.{◌≡◌, cond, [], ◌∷◌, map};
ghost use Rattle.std.specs.Option.{option_map, option_to_list};
ghost use Rattle.sheet.specs.Refusals.{told_number};
ghost use Rattle.sheet.specs.Signal.{GND, VCC, connected, is_net};
ghost use Rattle.exercise.specs.declared.Record.«TheVariants».{Register};
ghost use Rattle.distinct.specs.passes.UpToTwo.{with_codes, codes_of};
ghost use Rattle.entries.specs.Table.{SCLR, SLOAD, needs_of};
ghost use Rattle.lab_rules.specs.Ports.{clock_pair, pair, in_use, fixed, pair_in_use};
ghost use Rattle.lab_rules.specs.Rules.{needs_of_role, lab_result_from};
ghost use Rattle.lab_rules.specs.passes.Counts.{no_counts, counts_with, broken_by, net_codes, only_code, first, second, with_needs, needs_held, result_from, lab_search_from, searched};

use distinct::UpToTwo;
use entries::{EntryTable, Need, Needs};
use exercise::{Record, RegisterCell};
use route::Search;
use sheet::{Refusal, Signal};

// Rule 64: more nets than this break it.
pub const MAX_NETS_IN: u16 = 38;

// The control signals of a LAB's registers, distinct, as far as rules 60 to 63 and the needs ask for them.
// A pair is 65536 * clk + ena, a synchronous one 65536 * sload + sclr; enables are the ena signals that are nets.
#[derive(Clone, Copy, PartialEq, Eq)]
pub struct Counts {
    pub clocks: UpToTwo,
    pub pairs: UpToTwo,
    pub clears: UpToTwo,
    pub synchronous: UpToTwo,
    pub enables: UpToTwo,
}

// What counts at a port: its signal where it is connected, otherwise GND where the register is used.
fn counted(signal: Signal, used: bool) -> Option<Signal>
    ensures { option_to_list (option_map (λ s. s.0) result) ≡ cond (connected signal.0) (signal.0 ∷ []) (cond used (GND ∷ []) []) }
{
    if signal.is_connected() {
        Some(signal)
    } else if used {
        Some(Signal::GND)
    } else {
        None
    }
}

// One code more: what counts at a port.
#[tactic(auto, unfolding(distinct::specs::passes::UpToTwo::with_codes))]
fn with_counted(codes: UpToTwo, signal: Signal, used: bool) -> UpToTwo
    ensures { result ≡ with_codes codes (cond (connected signal.0) (signal.0 ∷ []) (cond used (GND ∷ []) [])) }
{
    match counted(signal, used) {
        Some(signal) => codes.with(u32::from(signal.0)),
        None => codes,
    }
}

// The (clk, ena) pair of a register whose clk counts.
#[tactic(auto, unfolding(distinct::specs::passes::UpToTwo::with_codes, crate::specs::Ports::clock_pair, crate::specs::Ports::counted))]
fn with_pair(codes: UpToTwo, cell: RegisterCell) -> UpToTwo
    ensures { result ≡ with_codes codes (clock_pair cell) }
{
    let ena = enable_or_vcc(cell.ena);
    match counted(cell.clk, cell.regout.is_connected()) {
        Some(clk) => codes.with(pair(clk, ena)),
        None => codes,
    }
}

// An unconnected enable counts as VCC.
fn enable_or_vcc(ena: Signal) -> Signal
    ensures { result.0 ≡ cond (connected ena.0) ena.0 VCC }
{
    if ena.is_connected() {
        return ena;
    }
    Signal::VCC
}

// A pair of signals as one code.
fn pair(high: Signal, low: Signal) -> u32
    ensures { result ≡ pair high.0 low.0 }
{
    65536 * u32::from(high.0) + u32::from(low.0)
}

// At sclr and sload every signal but unconnected and GND is in use.
fn is_in_use(signal: Signal) -> bool
    ensures { result ≡ in_use signal.0 }
{
    signal.is_connected() & (signal != Signal::GND)
}

// At which signal a cell that uses sclr or sload fixes one of them.
fn used_or_gnd(signal: Signal) -> Signal
    ensures { result.0 ≡ fixed signal.0 }
{
    if is_in_use(signal) {
        return signal;
    }
    Signal::GND
}

// The (sload, sclr) pair of a cell that uses one of them.
#[tactic(auto, unfolding(distinct::specs::passes::UpToTwo::with_codes, crate::specs::Ports::pair_in_use))]
fn with_synchronous(codes: UpToTwo, sload: Signal, sclr: Signal) -> UpToTwo
    ensures { result ≡ with_codes codes (pair_in_use sload.0 sclr.0) }
{
    let loads = is_in_use(sload);
    let clears = is_in_use(sclr);
    if loads | clears {
        return codes.with(pair(used_or_gnd(sload), used_or_gnd(sclr)));
    }
    codes
}

// A signal that is a net.
#[tactic(auto, unfolding(distinct::specs::passes::UpToTwo::with_codes))]
fn with_net(codes: UpToTwo, signal: Signal) -> UpToTwo
    ensures { result ≡ with_codes codes (cond (is_net signal.0) (signal.0 ∷ []) []) }
{
    if signal.is_net() {
        return codes.with(u32::from(signal.0));
    }
    codes
}

impl Counts {
    pub fn none() -> Self
        ensures { result ≡ no_counts }
    {
        Counts {
            clocks: UpToTwo::Empty,
            pairs: UpToTwo::Empty,
            clears: UpToTwo::Empty,
            synchronous: UpToTwo::Empty,
            enables: UpToTwo::Empty,
        }
    }

    // One cell more. Only registers have control ports.
    #[tactic(auto, unfolding(distinct::specs::passes::UpToTwo::with_codes, crate::specs::passes::Counts::counts_with))]
    pub fn with(self, cell: Record) -> Self
        ensures { result ≡ counts_with self cell }
    {
        let Record::Register(register) = cell else {
            return self;
        };
        self.with_register(register)
    }

    #[tactic(auto, unfolding(crate::specs::passes::Counts::counts_with, crate::specs::Ports::counted, crate::specs::Ports::needed))]
    fn with_register(self, cell: RegisterCell) -> Self
        ensures { result ≡ counts_with self (Register cell) }
    {
        let used = cell.regout.is_connected();
        let clocks = with_counted(self.clocks, cell.clk, used);
        let pairs = with_pair(self.pairs, cell);
        let clears = with_counted(self.clears, cell.aclr, used);
        let synchronous = with_synchronous(self.synchronous, cell.sload, cell.sclr);
        let enables = with_net(self.enables, cell.ena);
        Counts {
            clocks,
            pairs,
            clears,
            synchronous,
            enables,
        }
    }
}

// The lowest of 60 to 64 that the counts and the number of nets in break.
#[tactic(auto, unfolding(crate::specs::passes::Counts::broken_by))]
fn check_counts(counts: Counts, nets: u16) -> Result<(), Refusal>
    ensures { told_number result ≡ broken_by counts nets }
{
    if 2 < counts.clocks.count() {
        return Err(Refusal::TooManyClocks);
    }
    if 2 < counts.pairs.count() {
        return Err(Refusal::TooManyPairs);
    }
    if 2 < counts.clears.count() {
        return Err(Refusal::TooManyClears);
    }
    if 1 < counts.synchronous.count() {
        return Err(Refusal::TooManySynchronous);
    }
    if MAX_NETS_IN < nets {
        return Err(Refusal::TooManyNets);
    }
    Ok(())
}

// A need of the role, where the code is a net's.
#[tactic(auto, unfolding(crate::specs::passes::Counts::with_needs))]
fn with_code(needs: Needs, role: u8, code: u32) -> Needs
    ensures { result ≡ with_needs needs (needs_of_role role (net_codes (code ∷ []))) }
{
    let Ok(code) = u16::try_from(code) else {
        return needs;
    };
    let signal = Signal(code);
    if signal.is_net() {
        return needs.with(Need { role, signal });
    }
    needs
}

// Needs of the role for the codes that a counter holds, two at the most.
#[tactic(auto, unfolding(distinct::specs::passes::UpToTwo::codes_of, crate::specs::passes::Counts::with_needs))]
fn with_codes(needs: Needs, role: u8, codes: UpToTwo) -> Needs
    ensures { result ≡ with_needs needs (needs_of_role role (net_codes (codes_of codes))) }
{
    match codes {
        UpToTwo::One(code) => with_code(needs, role, code),
        UpToTwo::Two(low, high) => with_code(with_code(needs, role, low), role, high),
        UpToTwo::Empty | UpToTwo::More => needs,
    }
}

// Needs of sclr and sload for the one pair that a counter holds.
#[tactic(auto, unfolding(crate::specs::passes::Counts::only_code, crate::specs::passes::Counts::with_needs))]
fn with_only(needs: Needs, pairs: UpToTwo) -> Needs
    ensures { result ≡ with_needs (with_needs needs (needs_of_role SCLR (net_codes (map second (only_code pairs))))) (needs_of_role SLOAD (net_codes (map first (only_code pairs)))) }
{
    let UpToTwo::One(pair) = pairs else {
        return needs;
    };
    with_code(with_code(needs, 3, pair % 65536), 4, pair / 65536)
}

// The needs that the counts hold, in the order of roles, then rising code.
#[tactic(auto, using(crate::proofs::Steps::needs_are))]
pub fn needs_held(counts: Counts) -> Needs
    ensures { result ≡ needs_of (needs_held counts) }
{
    let clk = with_codes(Needs::none(), 0, counts.clocks);
    let ena = with_codes(clk, 1, counts.enables);
    let aclr = with_codes(ena, 2, counts.clears);
    with_only(aclr, counts.synchronous)
}

// The result of a LAB with these counts and so many nets in, on a board with this entry table: its eight route bytes, or the lowest broken of 60 to 65.
// And the tries of the search for its route: none where it breaks one of 60 to 64.
#[tactic(auto, using(sheet::proofs::Refusals::refused_number, entries::proofs::NeedLists::list_needs_lem, crate::proofs::Steps::held_fits), unfolding(crate::specs::passes::Counts::searched, crate::specs::passes::Counts::result_from, crate::specs::passes::Counts::tries_for))]
pub fn lab_search(table: EntryTable, counts: Counts, nets: u16) -> Search<Result<[u8; 8], Refusal>>
    ensures { lab_search_from result ≡ searched table counts nets }
{
    if let Err(refusal) = check_counts(counts, nets) {
        return Search {
            found: Err(refusal),
            tries: 0,
        };
    }
    let Search { found, tries } = route::lab_route(table, needs_held(counts));
    Search {
        found: found.ok_or(Refusal::NoWay),
        tries,
    }
}

// The result alone.
#[tactic(auto, unfolding(crate::specs::passes::Counts::searched))]
pub fn lab_result(table: EntryTable, counts: Counts, nets: u16) -> Result<[u8; 8], Refusal>
    ensures { lab_result_from result ≡ result_from table counts nets }
{
    lab_search(table, counts, nets).found
}
