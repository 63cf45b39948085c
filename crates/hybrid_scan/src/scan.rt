ghost use Rattle.std.specs.Prelude.{◌≡◌, ℕ, ◌+◌, ◌-◌, ◌<◌, ◌≤◌, ◌^◌, ◌++◌, true, length, slice_get, option_copied, IfOk, OnOk};
ghost use Rattle.std.specs.Int.{bit_at};
ghost use Rattle.std.specs.Option.{ForSome};
ghost use Rattle.column_codec.specs.Extent.{AreColumns};
ghost use Rattle.hybrid_scan.specs.Reader.{StillCovers};
ghost use Rattle.hybrid_scan.specs.Scan.{seen, scanned, stored, from_store, wide, wide_rows, extent_rows, rows_from};
ghost use Rattle.hybrid_scan.specs.Progress.{is_here, is_earlier, nth_place, marks_nth, AreClear, IsBorder, HasAdded, HasScanned};
ghost use Rattle.hybrid_scan.specs.Covers.{AreCommitted};

use crate::reader::BlockReader;
use crate::sink::RowSink;
use crate::wide_row::WideRow;
use adg_base::address::{Addr, SLOTS};
use adg_base::definition::Definition;
use adg_base::list::List;
use adg_base::memory::Memory;
use adg_base::number::{Obj, Scn};
use adg_base::placed::PlacedRow;
use adg_base::row::RowList;
use adg_base::steps::Steps;
use column_codec::columns::Columns;
use column_units::unit::CleanRows;
use scan_eval::accumulator::Accumulator;
use std::alloc::Global;
use std::sync::ledger::Ledger;

/// How many blocks an extent has.
const BLOCKS: u16 = 16;

/// How many addresses an extent has.
const PLACES: u16 = 1024;

/// How many rows of an extent came from columns, and how many the store handed out.
#[derive(Clone, Copy, Debug, PartialEq, Eq)]
pub struct ExtentCounts {
    pub from_columns: u64,
    pub from_blocks: u64,
}

/// The rows of an extent, each as wide as its object, in the order of their addresses.
#[derive(Debug, Drop)]
pub struct ExtentRows {
    pub rows: RowList,
    pub from_columns: u64,
    pub from_blocks: u64,
}

/// The extent that is scanned, as wide as its object is, and the SCN of the scan.
#[derive(Debug, Drop)]
pub struct Target {
    obj: Obj,
    extent: u16,
    width: usize,
    q: Scn,
}

impl ExtentCounts {
    const NONE: ExtentCounts = ExtentCounts {
        from_columns: 0,
        from_blocks: 0,
    };
}

/// The rows of an extent that are committed at `q`, where the look covers it: clean ones from the
/// columns of the look and marked ones from the store, or all from the store.
pub fn scan_extent<B: BlockReader, L: Ledger>(
    alloc: Global,
    look: Option<&CleanRows>,
    reader: &mut B,
    def: &Definition,
    extent: u16,
    q: Scn,
    steps: &mut Steps<L>,
) -> Result<ExtentRows, Memory>
    requires covers { B.covers reader.old q }
    requires within { extent < 256 }
    requires columns { ForSome (option_copied look) (λ look. AreColumns def.now.obj extent look.columns) }
    ensures scanned { IfOk result (λ s. s.rows ≡ scanned (option_copied look.entry) def.now.width (B.committed reader.old q) def.now.obj extent) }
    ensures committed { IfOk result (λ s. AreCommitted s.rows (option_copied look.entry) def.now.width (B.committed reader.old q) def.now.obj extent q) }
    ensures count { IfOk result (λ s. s.from_columns + s.from_blocks ≡ length s.rows) }
    ensures blocks { IfOk result (λ s. s.from_blocks ≡ length (from_store (option_copied look.entry) def.now.width (B.committed reader.old q) def.now.obj extent)) }
    ensures cost { IfOk result (λ s. steps.new ≡ steps.old + s.from_blocks) }
    ensures still { StillCovers (B.covers reader.old) (B.covers reader.new) (B.committed reader.old) (B.committed reader.new) }
{
    let mut rows: RowList = List::new(alloc);
    let target = Target::of(def, extent, q);
    let counts = add_rows(alloc, &mut rows, look, reader, &target, steps)?;
    Ok(ExtentRows {
        rows,
        from_columns: counts.from_columns,
        from_blocks: counts.from_blocks,
    })
}

/// Adds the same rows to an accumulator, those from columns without making rows of them.
pub fn add_extent<B: BlockReader, L: Ledger>(
    alloc: Global,
    accumulator: &mut Accumulator,
    look: Option<&CleanRows>,
    reader: &mut B,
    def: &Definition,
    extent: u16,
    q: Scn,
    steps: &mut Steps<L>,
) -> Result<ExtentCounts, Memory>
    requires covers { B.covers reader.old q }
    requires within { extent < 256 }
    requires columns { ForSome (option_copied look) (λ look. AreColumns def.now.obj extent look.columns) }
    requires room { length accumulator.old.rows + 1024 < 2 ^ 64 }
    ensures select { accumulator.new.select ≡ accumulator.old.select }
    ensures scanned { OnOk result (accumulator.new.rows ≡ accumulator.old.rows ++ scanned (option_copied look.entry) def.now.width (B.committed reader.old q) def.now.obj extent) }
    ensures committed { AreCommitted (scanned (option_copied look.entry) def.now.width (B.committed reader.old q) def.now.obj extent) (option_copied look.entry) def.now.width (B.committed reader.old q) def.now.obj extent q }
    ensures count { IfOk result (λ counts. counts.from_columns + counts.from_blocks ≡ length (scanned (option_copied look.entry) def.now.width (B.committed reader.old q) def.now.obj extent)) }
    ensures blocks { IfOk result (λ counts. counts.from_blocks ≡ length (from_store (option_copied look.entry) def.now.width (B.committed reader.old q) def.now.obj extent)) }
    ensures cost { IfOk result (λ counts. steps.new ≡ steps.old + counts.from_blocks) }
    ensures still { StillCovers (B.covers reader.old) (B.covers reader.new) (B.committed reader.old) (B.committed reader.new) }
{
    let target = Target::of(def, extent, q);
    add_rows(alloc, accumulator, look, reader, &target, steps)
}

impl Target {
    fn of(def: &Definition, extent: u16, q: Scn) -> Target
        ensures { result ≡ record { obj = def.now.obj; extent = extent; width = def.now.width; q = q } }
    {
        Target {
            obj: def.obj,
            extent,
            width: usize::from(def.width),
            q,
        }
    }

    /// One of its addresses, in their order.
    fn address(&self, index: u16) -> Addr
        requires within { self.now.extent < 256 }
        requires index { index < 1024 }
        ensures { result ≡ nth_place self.now.obj self.now.extent index }
    {
        let block = self.extent * BLOCKS + index / u16::from(SLOTS);
        let slot = (index % u16::from(SLOTS)) as u8;
        Addr::new(self.obj, block, slot).unwrap()
    }
}

/// Hands the rows of an extent to a sink.
fn add_rows<S: RowSink, B: BlockReader, L: Ledger>(
    alloc: Global,
    sink: &mut S,
    look: Option<&CleanRows>,
    reader: &mut B,
    target: &Target,
    steps: &mut Steps<L>,
) -> Result<ExtentCounts, Memory>
    requires covers { B.covers reader.old target.now.q }
    requires within { target.now.extent < 256 }
    requires columns { ForSome (option_copied look) (λ look. AreColumns target.now.obj target.now.extent look.columns) }
    requires room { length (S.rows sink.old) + 1024 < 2 ^ 64 }
    ensures scanned { IfOk result (λ counts. HasScanned (scanned (option_copied look.entry) target.now.width (B.committed reader.old target.now.q) target.now.obj target.now.extent) (from_store (option_copied look.entry) target.now.width (B.committed reader.old target.now.q) target.now.obj target.now.extent) (S.rows sink.old) (S.rows sink.new) counts steps.old steps.new) }
    ensures query { S.query sink.new ≡ S.query sink.old }
    ensures still { StillCovers (B.covers reader.old) (B.covers reader.new) (B.committed reader.old) (B.committed reader.new) }
{
    match look {
        Some(look) => add_looked(alloc, sink, look, reader, target, steps),
        None => add_stored(alloc, sink, reader, target, steps),
    }
}

/// Hands over the rows that a look sees: those of the store at its marked addresses, in order, and the
/// rows of its columns between them.
fn add_looked<S: RowSink, B: BlockReader, L: Ledger>(
    alloc: Global,
    sink: &mut S,
    look: &CleanRows,
    reader: &mut B,
    target: &Target,
    steps: &mut Steps<L>,
) -> Result<ExtentCounts, Memory>
    requires covers { B.covers reader.old target.now.q }
    requires within { target.now.extent < 256 }
    requires columns { AreColumns target.now.obj target.now.extent look.now.columns }
    requires room { length (S.rows sink.old) + 1024 < 2 ^ 64 }
    ensures scanned { IfOk result (λ counts. HasScanned (extent_rows (seen look.now target.now.width (B.committed reader.old target.now.q)) target.now.obj target.now.extent) (extent_rows (stored look.now target.now.width (B.committed reader.old target.now.q)) target.now.obj target.now.extent) (S.rows sink.old) (S.rows sink.new) counts steps.old steps.new) }
    ensures query { S.query sink.new ≡ S.query sink.old }
    ensures still { StillCovers (B.covers reader.old) (B.covers reader.new) (B.committed reader.old) (B.committed reader.new) }
{
    let columns = look.columns();
    let mut counts = ExtentCounts::NONE;
    let mut next = 0;
    let mut index = 0;
    let mut mark = next_mark(look.marked(), index);
    while mark < PLACES {
        let addr = target.address(mark);
        let end = run_end(columns.addresses(), next, usize::from(mark - index), addr);
        add_run(alloc, sink, columns, next, end, &mut counts)?;
        add_stored_row(alloc, sink, reader, target, addr, &mut counts, steps)?;
        next = end + usize::from(is_at(columns.addresses(), end, addr));
        index = mark + 1;
        mark = next_mark(look.marked(), index);
    }
    let end = columns.addresses().len();
    add_run(alloc, sink, columns, next, end, &mut counts)?;
    Ok(counts)
}

/// The number of the first marked address from one on, or how many addresses there are.
#[tactic(auto, using(crate::proofs::Marks::clear_more, crate::proofs::Marks::marked_here))]
fn next_mark(map: &[u64; 16], from: u16) -> u16
    requires { from ≤ 1024 }
    ensures order { from ≤ result }
    ensures most { result ≤ 1024 }
    ensures clear { AreClear map.now from result }
    ensures marked { result < 1024 → marks_nth map.now result ≡ true }
{
    let mut index = from;
    while index < PLACES {
        let clear = clear_slots(map[usize::from(index / 64)], index % 64);
        if clear == 0 {
            return index;
        }
        index += clear;
    }
    index
}

/// How many slots of a block are not marked from one on, up to the next that is.
fn clear_slots(word: u64, slot: u16) -> u16
    requires { slot < 64 }
    ensures most { slot + result ≤ 64 }
    ensures clear { (k : ℕ) → slot ≤ k → k < slot + result → bit_at word k ≡ 0 }
    ensures marked { result ≡ 0 → bit_at word slot ≡ 1 }
{
    let rest = word >> slot;
    if rest == 0 {
        64 - slot
    } else {
        rest.trailing_zeros() as u16
    }
}

/// The place of the first row, from a place on, whose address is not before one. It lies at most so many
/// rows on.
fn run_end(addresses: &[Addr], next: usize, most: usize, addr: Addr) -> usize
    requires { next ≤ length addresses.now }
    ensures order { next ≤ result }
    ensures within { result ≤ length addresses.now }
    ensures border { (n : ℕ) → IsBorder addresses.now addr n → next ≤ n → n ≤ next + most → n ≤ length addresses.now → result ≡ n }
{
    let mut low = next;
    let mut high = addresses.len().min(next.saturating_add(most));
    while low < high {
        let middle = low + (high - low) / 2;
        if is_before(addresses[middle], addr) {
            low = middle + 1;
        } else {
            high = middle;
        }
    }
    low
}

/// Whether an address of an extent comes before another.
fn is_before(one: Addr, other: Addr) -> bool
    ensures { result ≡ is_earlier one other }
{
    one.block() < other.block() || (one.block() == other.block() && one.slot() < other.slot())
}

/// Whether the row at a place of columns lies at an address.
fn is_at(addresses: &[Addr], place: usize, addr: Addr) -> bool
    ensures { result ≡ is_here (slice_get addresses.now place) addr }
{
    match addresses.get(place) {
        Some(found) => *found == addr,
        None => false,
    }
}

/// Hands over the rows of columns from a place to another, and counts them.
fn add_run<S: RowSink>(
    alloc: Global,
    sink: &mut S,
    columns: &Columns,
    from: usize,
    to: usize,
    counts: &mut ExtentCounts,
) -> Result<(), Memory>
    requires order { from ≤ to }
    requires room { length (S.rows sink.old) + (to - from) < 2 ^ 64 }
    requires counts { counts.old.from_columns + (to - from) < 2 ^ 64 }
    ensures rows { OnOk result (S.rows sink.new ≡ S.rows sink.old ++ rows_from columns.now from (to - from)) }
    ensures counts { OnOk result (counts.new ≡ record counts.old { from_columns = counts.old.from_columns + (to - from) }) }
    ensures query { S.query sink.new ≡ S.query sink.old }
{
    for place in from..to {
        sink.add(alloc, &columns.row(place))?;
    }
    counts.from_columns += (to - from) as u64;
    Ok(())
}

/// Hands over the row that the store has at an address, and counts it.
fn add_stored_row<S: RowSink, B: BlockReader, L: Ledger>(
    alloc: Global,
    sink: &mut S,
    reader: &mut B,
    target: &Target,
    addr: Addr,
    counts: &mut ExtentCounts,
    steps: &mut Steps<L>,
) -> Result<(), Memory>
    requires covers { B.covers reader.old target.now.q }
    requires room { length (S.rows sink.old) + 1 < 2 ^ 64 }
    requires counts { counts.old.from_blocks + 1 < 2 ^ 64 }
    ensures added { OnOk result (HasAdded (wide target.now.width (B.committed reader.old target.now.q) addr) (S.rows sink.old) (S.rows sink.new) counts.old counts.new steps.old steps.new) }
    ensures query { S.query sink.new ≡ S.query sink.old }
    ensures still { StillCovers (B.covers reader.old) (B.covers reader.new) (B.committed reader.old) (B.committed reader.new) }
{
    if let Some(row) = reader.row(addr, target.q, steps)? {
        let width = target.width;
        sink.add(alloc, &WideRow { row: &row, width })?;
        counts.from_blocks += 1;
    }
    Ok(())
}

/// Hands over all rows from the store, block by block.
fn add_stored<S: RowSink, B: BlockReader, L: Ledger>(
    alloc: Global,
    sink: &mut S,
    reader: &mut B,
    target: &Target,
    steps: &mut Steps<L>,
) -> Result<ExtentCounts, Memory>
    requires covers { B.covers reader.old target.now.q }
    requires within { target.now.extent < 256 }
    requires room { length (S.rows sink.old) + 1024 < 2 ^ 64 }
    ensures scanned { IfOk result (λ counts. HasScanned (extent_rows (wide target.now.width (B.committed reader.old target.now.q)) target.now.obj target.now.extent) (extent_rows (wide target.now.width (B.committed reader.old target.now.q)) target.now.obj target.now.extent) (S.rows sink.old) (S.rows sink.new) counts steps.old steps.new) }
    ensures query { S.query sink.new ≡ S.query sink.old }
    ensures still { StillCovers (B.covers reader.old) (B.covers reader.new) (B.committed reader.old) (B.committed reader.new) }
{
    let mut counts = ExtentCounts::NONE;
    for index in 0..BLOCKS {
        let block = target.extent * BLOCKS + index;
        let rows = reader.rows(target.obj, block, target.q, steps)?;
        add_wide(alloc, sink, rows.as_slice(), target.width)?;
        counts.from_blocks += rows.len() as u64;
    }
    Ok(counts)
}

/// Hands over rows, each as wide as its object.
fn add_wide<S: RowSink>(
    alloc: Global,
    sink: &mut S,
    rows: &[PlacedRow],
    width: usize,
) -> Result<(), Memory>
    requires room { length (S.rows sink.old) + length rows.now < 2 ^ 64 }
    ensures rows { OnOk result (S.rows sink.new ≡ S.rows sink.old ++ wide_rows width rows.now) }
    ensures query { S.query sink.new ≡ S.query sink.old }
{
    for row in rows {
        let row = &row.row;
        sink.add(alloc, &WideRow { row, width })?;
    }
    Ok(())
}
