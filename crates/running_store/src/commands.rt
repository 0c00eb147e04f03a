// A command is checked, and appended: its record, the values that it makes, and its entry in the graph.
ghost use Rattle.std.specs.Prelude.{◌≡◌, ◌<◌, ◌^◌, ℕ, List, false};
ghost use Rattle.std.specs.Result.{result_err};
ghost use Rattle.oper_core.specs.Meaning.{FitsReads, IsInGrammar};
ghost use Rattle.running_store.specs.Calls.Commands.{HasCommanded, IsLeft, IsReady, command_length};
ghost use Rattle.running_store.specs.Laid.Lent.{inputs_in};
ghost use Rattle.running_store.specs.Calls.Logged.{HasPlace};
ghost use Rattle.running_store.specs.Parts.{meaning_in};
ghost use Rattle.running_store.specs.StoreView.{next_of, store_params};

use crate::store::Store;
use install_order::Entry;
use oper_core::{Memory, Oper, Refusal, Values};

impl<O: Oper> Store<O> {
    /// The answer of a command's check on copies of what it reads, or else on what is cached. Nothing changes.
    pub fn check_command(&mut self, op: &O, copies: &Option<Values>) -> Result<(), Refusal>
        requires unbroken { self.old.broken ≡ false }
        requires grammar { IsInGrammar (meaning_in O.meaning (store_params self.old)) op.now }
        requires fits { FitsReads (meaning_in O.meaning (store_params self.old)) op.now (inputs_in self.old.parts.volatile.objects.cache ((meaning_in O.meaning (store_params self.old)).reads op.now) copies.now) }
        ensures answer { result_err result ≡ (meaning_in O.meaning (store_params self.old)).check op.now (inputs_in self.old.parts.volatile.objects.cache ((meaning_in O.meaning (store_params self.old)).reads op.now) copies.now) }
        ensures left { IsLeft self.old self.new }
        ensures log { self.new.parts.log ≡ self.old.parts.log }
        ensures same { (objects : List ℕ) → inputs_in self.new.parts.volatile.objects.cache objects copies.now ≡ inputs_in self.old.parts.volatile.objects.cache objects copies.now }
    {
        self.objects.check(op, copies)
    }

    /// Adds a command to the log's buffer, to the objects and to the graph, on copies of what it reads, or else on what is cached.
    /// Without memory nothing changes but room.
    pub fn append_command(&mut self, op: O, copies: Option<Values>) -> Result<(), Memory>
        requires unbroken { self.old.broken ≡ false }
        requires ready { IsReady O.meaning (store_params self.old) op (inputs_in self.old.parts.volatile.objects.cache ((meaning_in O.meaning (store_params self.old)).reads op) copies) }
        requires lsn { next_of self.old < 2 ^ 62 }
        requires place { HasPlace self.old.parts.log.log (command_length (meaning_in O.meaning (store_params self.old)) op) }
        ensures { HasCommanded O.meaning self.old self.new op (inputs_in self.old.parts.volatile.objects.cache ((meaning_in O.meaning (store_params self.old)).reads op) copies) result }
    {
        let _params = self.objects.params();
        let lsn = self.log.next();
        let writes = op.writes();
        let entry = Entry {
            lsn,
            reads: op.reads(),
            writes,
            identity: false,
        };
        self.objects.make_room(entry.writes.as_slice())?;
        self.graph.make_room(&entry)?;
        let code = self.log.encode_command(&op)?;
        self.objects.run(lsn, op, copies, entry.writes.as_slice())?;

        // Nothing fails from here on.
        self.log.append_encoded(code);
        self.graph.add(entry);
        Ok(())
    }
}
