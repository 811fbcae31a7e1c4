// The calls that are written in files. What a call leaves of the shelf is a clause of each: it compares two moments, and a field holds
// at one.
ghost use Rattle.std.specs.Prelude.{◌≡◌, [], IfOk, IfErr};
ghost use Rattle.boxes.specs.Shelf.{box_of, shelf_of, SameLists};
ghost use Rattle.replay.specs.Came.{Came, Admitted, Filed, Entered, LayRefused, AdmitRefused, FileRefused, EntryStops, StoppedAt};
ghost use Rattle.replay.specs.Stop.{TableStops, BytesStop};

use crate::rules::{Written, rules_of, table_of};
use crate::stop::{Stop, Stopped};
use crate::work::Work;
use boxes::shelf::Shelf;
use boxes::stage::{LaidBox, NewBox};
use notation::value::{Entry, TableText};
use table::check::state_count;

impl Work {
    // Lays a form as written, on a new box.
    pub fn lay<C: Written>(
        &mut self,
        shelf: &mut Shelf<C>,
        form: &TableText,
    ) -> Result<LaidBox, Stop>
        ensures same_lists { SameLists shelf.old shelf.new }
        ensures came { IfOk result (λ b. Came C.Class.kinds C.Written.writes form.now [] (box_of b.held) (shelf_of shelf.new)) }
        ensures kept { IfErr result (λ _. shelf_of shelf.new ≡ shelf_of shelf.old) }
        ensures stops { IfErr result (TableStops C.Written.writes form.now.rules.items (LayRefused C.Class.kinds C.Written.writes form.now (shelf_of shelf.old))) }
    {
        let rules = rules_of::<C>(self.heap, form)?;
        let table = table_of(form, &rules);
        self.form_states = state_count(table);
        let new = NewBox {};
        Ok(new.lay(shelf, table)?)
    }

    // Admits a pattern as written.
    pub fn admit<C: Written>(
        &mut self,
        laid: LaidBox,
        shelf: &mut Shelf<C>,
        pattern: &TableText,
    ) -> Result<LaidBox, Stop>
        ensures same_lists { SameLists shelf.old shelf.new }
        ensures admitted { IfOk result (λ b. Admitted C.Class.kinds C.Written.writes pattern.now (box_of laid.held) (shelf_of shelf.old) (box_of b.held) (shelf_of shelf.new)) }
        ensures kept { IfErr result (λ _. shelf_of shelf.new ≡ shelf_of shelf.old) }
        ensures stops { IfErr result (TableStops C.Written.writes pattern.now.rules.items (AdmitRefused C.Class.kinds C.Written.writes pattern.now (box_of laid.held) (shelf_of shelf.old))) }
    {
        let rules = rules_of::<C>(self.heap, pattern)?;
        let table = table_of(pattern, &rules);
        self.prepare(state_count(table))?;
        Ok(laid.admit(shelf, table, &mut self.sheet, &mut self.helper)?)
    }

    // Files a record.
    pub fn file<C: Written>(
        &mut self,
        laid: LaidBox,
        shelf: &mut Shelf<C>,
        bytes: &[u8],
    ) -> Result<LaidBox, Stop>
        ensures same_lists { SameLists shelf.old shelf.new }
        ensures filed { IfOk result (λ b. Filed C.Class.kinds C.Written.writes bytes.now (box_of laid.held) (shelf_of shelf.old) (box_of b.held) (shelf_of shelf.new)) }
        ensures kept { IfErr result (λ _. shelf_of shelf.new ≡ shelf_of shelf.old) }
        ensures stops { IfErr result (BytesStop (FileRefused C.Class.kinds C.Written.writes bytes.now (box_of laid.held) (shelf_of shelf.old))) }
    {
        Ok(laid.file(shelf, bytes, &mut self.list, &mut self.scratch)?)
    }

    // Makes the call of one entry.
    fn enter<C: Written>(
        &mut self,
        laid: LaidBox,
        shelf: &mut Shelf<C>,
        entry: &Entry,
    ) -> Result<LaidBox, Stop>
        ensures same_lists { SameLists shelf.old shelf.new }
        ensures entered { IfOk result (λ b. Entered C.Class.kinds C.Written.writes entry.now (box_of laid.held) (shelf_of shelf.old) (box_of b.held) (shelf_of shelf.new)) }
        ensures kept { IfErr result (λ _. shelf_of shelf.new ≡ shelf_of shelf.old) }
        ensures stops { IfErr result (EntryStops C.Class.kinds C.Written.writes entry.now (box_of laid.held) (shelf_of shelf.old)) }
    {
        match entry {
            Entry::Pattern(pattern) => self.admit(laid, shelf, &pattern.table),
            Entry::Record(record) => self.file(laid, shelf, &record.bytes),
        }
    }

    // Makes the calls that a box file tells of on a new box: that of its form, then those of its entries in their order. They lead to the box
    // and the shelf that it hands back; or it stops at the first that is not made or is refused.
    pub fn replay<C: Written>(
        &mut self,
        shelf: &mut Shelf<C>,
        form: &TableText,
        entries: &[Entry],
    ) -> Result<LaidBox, Stopped>
        ensures same_lists { SameLists shelf.old shelf.new }
        ensures came { IfOk result (λ b. Came C.Class.kinds C.Written.writes form.now entries.now (box_of b.held) (shelf_of shelf.new)) }
        ensures stopped { IfErr result (λ s. StoppedAt C.Class.kinds C.Written.writes form.now entries.now (shelf_of shelf.old) s.entry s.stop (shelf_of shelf.new)) }
    {
        let mut laid = self
            .lay(shelf, form)
            .map_err(|stop| Stopped { entry: None, stop })?;
        // by `match`: the closure of `map_err` captures the number, which the loop's invariant (in proofs/) names, and the proof did not close
        for (number, entry) in entries.iter().enumerate() {
            laid = match self.enter(laid, shelf, entry) {
                Ok(laid) => laid,
                Err(stop) => {
                    return Err(Stopped {
                        entry: Some(number),
                        stop,
                    });
                }
            };
        }
        Ok(laid)
    }
}
