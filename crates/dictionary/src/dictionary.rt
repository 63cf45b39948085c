ghost use Rattle.std.specs.Prelude.{◌≡◌, ℕ, List, [], ◌∷◌, ◌++◌, Option, Some, None, OnOk, OnErr, MatchResult};
ghost use Rattle.adg_base.specs.declared.log.LogEntry.{LogEntry as Entry};
ghost use Rattle.adg_base.specs.declared.vector.Vector.TheVariants.{Begin, Put, Delete, Undo, Commit, Abort, Create, DropObject as Drops, AddColumn, NoInMemory};
ghost use Rattle.adg_model.specs.Database.{database, table_at, with_change, is_in_memory};
ghost use Rattle.adg_model.specs.declared.fault.CheckKind.TheVariants.{TxnUnknown};
ghost use Rattle.adg_base.specs.declared.value.Value.{Value as Cell};
ghost use Rattle.dictionary.specs.Transactions.{TracksIn};
ghost use Rattle.adg_model.specs.Defined.{AreDefined};
ghost use Rattle.adg_model.specs.Sound.{refusal, demand, is_running};
ghost use Rattle.dictionary.specs.Standing.{StandsFor, MayFollow, IsAnswer};
ghost use Rattle.dictionary.specs.Checks.{Answers, TakesUp, IsPlaced, IsMisplaced};

use crate::definition::{address_in, definition_of, kinds_of, with_column, without_flag};
use crate::objects::Objects;
use crate::refused::RedoRefused;
use crate::row::fits_row;
use crate::transactions::Transactions;
use adg_base::address::Addr;
use adg_base::definition::Definition;
use adg_base::log::LogEntry;
use adg_base::number::{Obj, Scn, Txn};
use adg_base::row::Row;
use adg_base::value::ColKind;
use adg_base::vector::Vector;
use adg_model::fault::CheckKind;
use std::alloc::Global;
use std::marker::Model;

/// The transactions and the objects of a redo log, as its entries made them.
#[derive(Debug, Drop)]
pub struct Dictionary {
    transactions: Transactions,
    objects: Objects,
}

impl Model for Dictionary {
    ghost use Rattle.dictionary.specs.Standing.{Known};

    ghost Value = { Known };

    ghost view = { λ d. record { transactions = d.transactions; objects = d.objects } };
}

impl Dictionary {
    /// The dictionary of the empty log.
    pub fn new(alloc: Global) -> Dictionary
        ensures { StandsFor result [] }
    {
        Dictionary {
            transactions: Transactions::new(alloc),
            objects: Objects::new(alloc),
        }
    }

    /// Checks the entry that comes next, and takes it up where it passes. The clauses speak of any log
    /// that the dictionary stands for, and of an entry that may follow it.
    pub fn check(&mut self, entry: &LogEntry) -> Result<(), RedoRefused>
        ensures answer { (log : List Entry) → StandsFor self.old log → IsAnswer result (refusal (database log) entry.now.vector) }
        ensures accepted { OnOk result ((log : List Entry) → StandsFor self.old log → MayFollow log entry.now → StandsFor self.new (log ++ entry.now ∷ [])) }
        ensures unchanged { OnErr result (self.new ≡ self.old) }
    {
        let scn = entry.scn;
        match &entry.vector {
            Vector::Begin { txn } => self.begin(*txn),
            Vector::Put {
                txn,
                obj,
                block,
                slot,
                row,
            } => self.put(*txn, *obj, *block, *slot, row),
            Vector::Delete {
                txn,
                obj,
                block,
                slot,
            } => self.delete(*txn, *obj, *block, *slot),
            Vector::Undo {
                txn,
                obj,
                block,
                slot,
            } => self.undo(*txn, *obj, *block, *slot),
            Vector::Commit { txn, flag } => self.commit(*txn, *flag),
            Vector::Abort { txn } => self.abort(*txn),
            Vector::Create {
                obj,
                extents,
                flag,
                columns,
            } => self.create(scn, *obj, *extents, *flag, columns.as_slice()),
            Vector::DropObject { obj } => self.drop_object(scn, *obj),
            Vector::AddColumn { obj, kind } => self.add_column(scn, *obj, *kind),
            Vector::NoInMemory { obj } => self.no_in_memory(scn, *obj),
            Vector::EndThread => Ok(()),
        }
    }

    /// The definition of an object by the entries with SCNs up to one. None where the object was not
    /// created by then, or was dropped.
    pub fn at(&self, obj: Obj, scn: Scn) -> Option<Definition>
        ensures { (log : List Entry) → StandsFor self.now log → AreDefined obj (table_at log scn obj) result }
    {
        self.objects.at(obj, scn).copied()
    }

    /// A transaction begins.
    fn begin(&mut self, txn: Txn) -> Result<(), RedoRefused>
        ensures answer { Answers self.old (Begin txn) result }
        ensures accepted { OnOk result ((scn : ℕ) → TakesUp self.old self.new scn (Begin txn)) }
        ensures unchanged { OnErr result (self.new ≡ self.old) }
    {
        if self.transactions.is_begun(txn) {
            return Err(RedoRefused::Check(CheckKind::TxnTwice));
        }
        self.transactions.begin(txn)?;
        Ok(())
    }

    /// The address of a change, and the definition of its object; or the check that it fails.
    fn place_of(&self, obj: Obj, block: u16, slot: u8) -> Result<(Addr, &Definition), CheckKind>
        ensures { (log : List Entry) → StandsFor self.now log → MatchResult result
            (λ found. IsPlaced (database log) obj block slot found.0 found.1.now)
            (IsMisplaced (database log) obj block slot) }
    {
        let Some(definition) = self.objects.latest(obj) else {
            return Err(CheckKind::NoObject);
        };
        match address_in(definition, block, slot) {
            Some(addr) => Ok((addr, definition)),
            None => Err(CheckKind::BadAddress),
        }
    }

    /// The first check that a change fails, where this is the first but for that of its transaction.
    fn first_of(&self, txn: Txn, check: CheckKind) -> CheckKind
        ensures { (log : List Entry) → StandsFor self.now log → demand (is_running (database log) txn) TxnUnknown (Some check) ≡ Some result }
    {
        if self.transactions.is_running(txn) {
            check
        } else {
            CheckKind::TxnUnknown
        }
    }

    /// A transaction makes a change that passes all checks but for that of the transaction, which is made
    /// here, since a change looks for its transaction.
    fn change(&mut self, txn: Txn, addr: Addr, in_memory: bool) -> Result<(), RedoRefused>
        ensures answer { (log : List Entry) → StandsFor self.old log → IsAnswer result (demand (is_running (database log) txn) TxnUnknown None) }
        ensures objects { OnOk result (self.new.objects ≡ self.old.objects) }
        ensures accepted { OnOk result ((log : List Entry) (row : Option (List Cell)) → StandsFor self.old log → in_memory ≡ is_in_memory ((database log).tables addr.obj)
            → TracksIn self.new.transactions (with_change (database log) txn (record { at = addr; row = row }))) }
        ensures unchanged { OnErr result (self.new ≡ self.old) }
    {
        if self.transactions.change(txn, addr, in_memory)? {
            Ok(())
        } else {
            Err(RedoRefused::Check(CheckKind::TxnUnknown))
        }
    }

    /// A transaction sets a row.
    fn put(
        &mut self,
        txn: Txn,
        obj: Obj,
        block: u16,
        slot: u8,
        row: &Row,
    ) -> Result<(), RedoRefused>
        ensures answer { Answers self.old (Put txn obj block slot row.now) result }
        ensures accepted { OnOk result ((scn : ℕ) → TakesUp self.old self.new scn (Put txn obj block slot row.now)) }
        ensures unchanged { OnErr result (self.new ≡ self.old) }
    {
        let (addr, definition) = match self.place_of(obj, block, slot) {
            Ok(found) => found,
            Err(check) => return Err(RedoRefused::Check(self.first_of(txn, check))),
        };
        if !fits_row(row.as_slice(), kinds_of(definition)) {
            return Err(RedoRefused::Check(self.first_of(txn, CheckKind::BadRow)));
        }
        let in_memory = definition.flag;
        self.change(txn, addr, in_memory)
    }

    /// A transaction removes a row.
    fn delete(&mut self, txn: Txn, obj: Obj, block: u16, slot: u8) -> Result<(), RedoRefused>
        ensures answer { Answers self.old (Delete txn obj block slot) result }
        ensures accepted { OnOk result ((scn : ℕ) → TakesUp self.old self.new scn (Delete txn obj block slot)) }
        ensures unchanged { OnErr result (self.new ≡ self.old) }
    {
        let (addr, definition) = match self.place_of(obj, block, slot) {
            Ok(found) => found,
            Err(check) => return Err(RedoRefused::Check(self.first_of(txn, check))),
        };
        let noted = definition.flag;
        self.change(txn, addr, noted)
    }

    /// A transaction takes back its latest change at an address.
    fn undo(&mut self, txn: Txn, obj: Obj, block: u16, slot: u8) -> Result<(), RedoRefused>
        ensures answer { Answers self.old (Undo txn obj block slot) result }
        ensures accepted { OnOk result ((scn : ℕ) → TakesUp self.old self.new scn (Undo txn obj block slot)) }
        ensures unchanged { OnErr result (self.new ≡ self.old) }
    {
        if !self.transactions.is_running(txn) {
            return Err(RedoRefused::Check(CheckKind::TxnUnknown));
        }
        let (addr, _) = match self.place_of(obj, block, slot) {
            Ok(found) => found,
            Err(check) => return Err(RedoRefused::Check(check)),
        };
        if !self.transactions.has_pending(txn, addr) {
            return Err(RedoRefused::Check(CheckKind::NothingToUndo));
        }
        self.transactions.undo(txn, addr);
        Ok(())
    }

    /// A transaction ends with a commit.
    fn commit(&mut self, txn: Txn, flag: bool) -> Result<(), RedoRefused>
        ensures answer { Answers self.old (Commit txn flag) result }
        ensures accepted { OnOk result ((scn : ℕ) → TakesUp self.old self.new scn (Commit txn flag)) }
        ensures unchanged { OnErr result (self.new ≡ self.old) }
    {
        if !self.transactions.is_running(txn) {
            return Err(RedoRefused::Check(CheckKind::TxnUnknown));
        }
        if self.transactions.is_noted(txn) != flag {
            return Err(RedoRefused::Check(CheckKind::BadFlag));
        }
        self.transactions.end(txn)?;
        Ok(())
    }

    /// A transaction ends, and its changes are forgotten.
    fn abort(&mut self, txn: Txn) -> Result<(), RedoRefused>
        ensures answer { Answers self.old (Abort txn) result }
        ensures accepted { OnOk result ((scn : ℕ) → TakesUp self.old self.new scn (Abort txn)) }
        ensures unchanged { OnErr result (self.new ≡ self.old) }
    {
        if !self.transactions.is_running(txn) {
            return Err(RedoRefused::Check(CheckKind::TxnUnknown));
        }
        self.transactions.end(txn)?;
        Ok(())
    }

    /// An object is made.
    fn create(
        &mut self,
        scn: Scn,
        obj: Obj,
        extents: u16,
        flag: bool,
        columns: &[ColKind],
    ) -> Result<(), RedoRefused>
        ensures answer { Answers self.old (Create obj extents flag columns.now) result }
        ensures accepted { OnOk result (TakesUp self.old self.new scn (Create obj extents flag columns.now)) }
        ensures unchanged { OnErr result (self.new ≡ self.old) }
    {
        if self.objects.is_created(obj) {
            return Err(RedoRefused::Check(CheckKind::ObjectTwice));
        }
        let definition = definition_of(obj, extents, flag, columns);
        self.objects.create(obj, scn, Some(definition))?;
        Ok(())
    }

    /// An object is dropped.
    fn drop_object(&mut self, scn: Scn, obj: Obj) -> Result<(), RedoRefused>
        ensures answer { Answers self.old (Drops obj) result }
        ensures accepted { OnOk result (TakesUp self.old self.new scn (Drops obj)) }
        ensures unchanged { OnErr result (self.new ≡ self.old) }
    {
        let Some(_definition) = self.objects.latest(obj) else {
            return Err(RedoRefused::Check(CheckKind::NoObject));
        };
        self.objects.change(obj, scn, None)?;
        Ok(())
    }

    /// An object gets one column more.
    fn add_column(&mut self, scn: Scn, obj: Obj, kind: ColKind) -> Result<(), RedoRefused>
        ensures answer { Answers self.old (AddColumn obj kind) result }
        ensures accepted { OnOk result (TakesUp self.old self.new scn (AddColumn obj kind)) }
        ensures unchanged { OnErr result (self.new ≡ self.old) }
    {
        let Some(definition) = self.objects.latest(obj) else {
            return Err(RedoRefused::Check(CheckKind::NoObject));
        };
        let Some(wider) = with_column(definition, kind) else {
            return Err(RedoRefused::Check(CheckKind::BadRow));
        };
        self.objects.change(obj, scn, Some(wider))?;
        Ok(())
    }

    /// An object is no longer in-memory.
    fn no_in_memory(&mut self, scn: Scn, obj: Obj) -> Result<(), RedoRefused>
        ensures answer { Answers self.old (NoInMemory obj) result }
        ensures accepted { OnOk result (TakesUp self.old self.new scn (NoInMemory obj)) }
        ensures unchanged { OnErr result (self.new ≡ self.old) }
    {
        let Some(definition) = self.objects.latest(obj) else {
            return Err(RedoRefused::Check(CheckKind::NoObject));
        };
        let plain = without_flag(definition);
        self.objects.change(obj, scn, Some(plain))?;
        Ok(())
    }
}
