// The same calls over each keeper.
ghost use Rattle.std.specs.Prelude.{IfOk};
ghost use Rattle.keeper_cases.specs.Stock.{IsInStep};
ghost use Rattle.row_keeper.specs.StoreView.{shape_of};
ghost use Rattle.sql_keeper.specs.View.{sql_shape};
ghost use Rattle.test_keeper.specs.Played.{AreInStep};

use crate::file::{forget, run};
use fx_base::Memory;
use fx_base::plan::FaultPlan;
use keeper_cases::{Call, Case, Said, numbers};
use row_keeper::{Keeper, MemoryKeeper};
use sql_keeper::SqlKeeper;
use std::alloc::Global;
use std::rt::HostRuntime;

/// The file of a database.
const FILE: &str = "stock.db";

/// A keeper in memory, and two over SQLite, in memory and in a file.
pub struct Played {
    rt: HostRuntime,
    pub memory: Case<MemoryKeeper>,
    pub sql: Case<SqlKeeper>,
    pub file: Case<SqlKeeper>,
    /// Whether SQLite isn't asked: its calls can't be planned to fail, and it passes over no
    /// numbers.
    is_alone: bool,
}

// By hand, so that it is called: what is derived is opened wherever a value may end, which costs
// proofs seconds each time.
impl Drop for Played {
    fn drop(self) {
        let Played {
            rt: _,
            memory: _,
            sql: _,
            file: _,
            is_alone: _,
        } = self;
    }
}

/// A keeper in memory, whose calls of these numbers fail.
fn in_memory(alloc: Global, fails: Vec<u64>) -> Case<MemoryKeeper>
    ensures { IsInStep result.stage.is_shaped result.stage.is_begun (shape_of result.keeper.store)
        result.keeper.store.is_begun }
{
    Case::new(MemoryKeeper::new(alloc, FaultPlan::new(fails)))
}

/// A keeper over the database of a name. Where it can't be opened, each call of the keeper fails.
fn over_sql(rt: HostRuntime, name: &str) -> Case<SqlKeeper>
    ensures { IsInStep result.stage.is_shaped result.stage.is_begun (sql_shape result.keeper)
        result.keeper.is_begun }
{
    let mut keeper = SqlKeeper::new(rt);
    let _attached = keeper.attach(name);
    Case::new(keeper)
}

/// What one more keeper answers that is attached to a name.
fn attach(rt: HostRuntime, name: &str, said: &mut Said) {
    said.put_done(SqlKeeper::new(rt).attach(name));
}

impl Played {
    /// New keepers, and a new file. In memory the calls of these numbers are to fail.
    pub fn new(rt: HostRuntime, fails: &str) -> Result<Played, Memory>
        ensures { IfOk result AreInStep }
    {
        let alloc = rt.alloc();
        let planned = numbers(alloc, fails)?;
        forget(&rt, FILE);
        Ok(Played {
            rt,
            is_alone: !planned.is_empty(),
            memory: in_memory(alloc, planned),
            sql: over_sql(rt, ":memory:"),
            file: over_sql(rt, FILE),
        })
    }

    /// Makes the call of a line, and adds what it answers.
    pub fn obey(&mut self, line: &str, said: &mut Said)
        requires { AreInStep self.old }
        ensures { AreInStep self.new }
    {
        let call = Call::of(line);
        match call {
            Call::New(fails) => self.renew(fails, said),
            Call::Skip(number) => self.skip(number, said),
            Call::Seen => self.see(said),
            Call::Reopen => self.reopen(),
            Call::Sql(text) => self.run(text, said),
            Call::Attach(name) => attach(self.rt, name, said),
            _ => self.compare(&call, said),
        }
    }

    /// Takes new keepers, and a new file.
    fn renew(&mut self, fails: &str, said: &mut Said)
        requires { AreInStep self.old }
        ensures { AreInStep self.new }
    {
        match Played::new(self.rt, fails) {
            Ok(played) => *self = played,
            Err(Memory) => said.miss(),
        }
    }

    /// Adds what a call answers in memory, and below it what it answers over another keeper where
    /// that differs.
    fn compare(&mut self, call: &Call, said: &mut Said)
        requires { AreInStep self.old }
        ensures { AreInStep self.new }
    {
        let mut answer = Said::new(said.alloc);
        self.memory.make(call, &mut answer);
        said.put_all(&answer);
        if !self.is_alone {
            compare_sql("over SQLite", &mut self.sql, call, &answer, said);
            compare_sql("over a file", &mut self.file, call, &answer, said);
        }
    }

    /// Passes over the numbers up to this one, but for SQLite.
    fn skip(&mut self, number: u32, said: &mut Said)
        requires { AreInStep self.old }
        ensures { AreInStep self.new }
    {
        if !self.memory.stage.is_begun {
            return said.put("not now");
        }
        self.is_alone = true;
        self.memory.keeper.skip_to(number);
        said.put("done");
    }

    /// Adds how many rows have been visited in memory, how many calls have failed there, and how
    /// many over SQLite.
    fn see(&self, said: &mut Said) {
        let (visited, faults) = (self.memory.keeper.visits(), self.memory.keeper.faults());
        let others = self
            .sql
            .keeper
            .faults()
            .saturating_add(self.file.keeper.faults());
        said.put_made(format!(in said.alloc;
            "{visited} visited, {faults} failed, {others} over SQLite"
        ));
    }

    /// Closes the file, so that it can be opened anew.
    fn close(&mut self)
        requires { AreInStep self.old }
        ensures { AreInStep self.new }
    {
        self.file = over_sql(self.rt, ":memory:");
    }

    fn reopen(&mut self)
        requires { AreInStep self.old }
        ensures { AreInStep self.new }
    {
        self.close();
        self.file = over_sql(self.rt, FILE);
    }

    /// Runs a statement over the file, and adds what it gives.
    fn run(&mut self, text: &str, said: &mut Said)
        requires { AreInStep self.old }
        ensures { AreInStep self.new }
    {
        self.close();
        run(&self.rt, FILE, text, said);
        self.file = over_sql(self.rt, FILE);
    }
}

/// Makes a call over a keeper over SQLite, and adds what it answers where that differs.
fn compare_sql(
    name: &str,
    keeper: &mut Case<SqlKeeper>,
    call: &Call,
    answer: &Said,
    said: &mut Said,
)
    requires { IsInStep keeper.old.stage.is_shaped keeper.old.stage.is_begun
        (sql_shape keeper.old.keeper) keeper.old.keeper.is_begun }
    ensures { IsInStep keeper.new.stage.is_shaped keeper.new.stage.is_begun
        (sql_shape keeper.new.keeper) keeper.new.keeper.is_begun }
{
    let mut other = Said::new(said.alloc);
    keeper.make(call, &mut other);
    said.put_differing(name, answer, &other);
}
