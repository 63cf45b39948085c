//! What is read of a transcript, line by line.

ghost use Rattle.std.specs.Prelude.{◌≡◌, ◌<◌, ◌+◌, ◌++◌, OnOk, IfOk, codes, decimal, string_bytes};
ghost use Rattle.soak_run.specs.Telling.{nothing_told, synced, with_cells, with_table, between, after_line, run_head, with_run, behind_equals};

use adg_base::memory::Memory;
use std::alloc::Global;
use std::marker::Model;

/// How many tables the summary tells.
const TABLES: u8 = 20;

/// The summary as far as it is written.
#[derive(Debug, Drop)]
pub struct Tally {
    scn: Vec<u8>,
    tables: u8,
    text: Vec<u8>,
}

impl Model for Tally {
    ghost use Rattle.soak_run.specs.Telling.{Told};

    ghost Value = { Told };

    ghost view = { λ t. record { scn = t.scn.items; tables = t.tables; text = t.text.items } };
}

/// The bytes behind the first equals sign; none where there is none.
fn behind_equals(line: &[u8]) -> &[u8]
    ensures { result.now ≡ behind_equals line.now }
{
    let mut rest = line;
    while let [byte, more @ ..] = rest {
        if *byte == b'=' {
            return more;
        }
        rest = more;
    }
    rest
}

/// What is said of a run in front of its SCN.
fn run_head(alloc: Global, seed: u64, txns: u32) -> Result<String, Memory>
    ensures { IfOk result (λ text. string_bytes text ≡ run_head seed txns) }
{
    Ok(format!(in alloc; "soak seed={seed} txns={txns} scn=")?)
}

impl Tally {
    /// Nothing is read yet.
    pub fn new(alloc: Global) -> Tally
        ensures { result ≡ nothing_told }
    {
        Tally {
            scn: Vec::new(alloc),
            tables: 0,
            text: Vec::new(alloc),
        }
    }

    fn push(&mut self, bytes: &[u8]) -> Result<(), Memory>
        ensures { OnOk result (self.new ≡ record self.old { text = self.old.text ++ bytes.now }) }
    {
        self.text.extend_from_slice(bytes)?;
        Ok(())
    }

    /// Begins anew at the line of a SYNC.
    fn begin(&mut self, front: &[u8]) -> Result<(), Memory>
        ensures { OnOk result (self.new ≡ synced front.now) }
    {
        self.scn.clear();
        self.scn.extend_from_slice(behind_equals(front))?;
        self.tables = 0;
        self.text.clear();
        Ok(())
    }

    /// Adds a line of an answer.
    fn add_cells(&mut self, cells: &[u8]) -> Result<(), Memory>
        ensures { OnOk result (self.new ≡ with_cells self.old cells.now) }
    {
        self.push(b" ")?;
        self.push(cells)
    }

    /// Begins the line of the next table.
    fn begin_table(&mut self, alloc: Global) -> Result<(), Memory>
        requires { self.old.tables < 20 }
        ensures { OnOk result (self.new ≡ with_table self.old) }
    {
        if self.tables > 0 {
            self.push(b"\n")?;
        }
        self.tables += 1;
        let table = self.tables;
        let head = format!(in alloc; "t{table} scn=")?;
        self.push(head.as_bytes())?;
        self.text.extend_from_slice(self.scn.as_slice())?;
        Ok(())
    }

    /// Reads one line more. Behind the last table comes the end of the delivery.
    pub fn read(&mut self, alloc: Global, line: &[u8]) -> Result<(), Memory>
        ensures { OnOk result (self.new ≡ after_line self.old line.now) }
    {
        if let Some(cells) = line.strip_prefix(b"= ") {
            self.add_cells(cells)
        } else if let Some(front) = line.strip_suffix(b" synced") {
            self.begin(front)
        } else if self.tables < TABLES {
            self.begin_table(alloc)
        } else {
            Ok(())
        }
    }

    /// The summary, with what was run.
    pub fn finish(self, alloc: Global, seed: u64, txns: u32) -> Result<Vec<u8>, Memory>
        ensures { IfOk result (λ text. text.items ≡ with_run seed txns self) }
    {
        let head = run_head(alloc, seed, txns)?;
        let mut text = self.text;
        text.push(b'\n')?;
        text.extend_from_slice(head.as_bytes())?;
        text.extend_from_slice(self.scn.as_slice())?;
        text.push(b'\n')?;
        Ok(text)
    }
}
