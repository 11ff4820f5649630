//! A program's turns between its movers' ones: the next instruction, and the closing of its holds.
ghost use Rattle.code_form.specs.Code.{allocations_of, is_blocked as is_blocked_in, sizes};
ghost use Rattle.code_form.specs.Placed.{object_at as object_in};
ghost use Rattle.code_form.specs.Touches.{IsCell, IsCellOrNone};
ghost use Rattle.code_form.specs.declared.touch.Touch.TheVariants as touch;
ghost use Rattle.pointer_word.specs.Calls.{Clears};
ghost use Rattle.std.specs.Prelude.{◌≡◌, ◌<◌, IfSome, None, Some, cond, option_map, true};
ghost use Rattle.world_actors.specs.Acting.{IsProgram, Turns};
ghost use Rattle.world_semantics.specs.Programs.{Program as Defined, first_hold, finished as finished_as, hold_at, holding, next_touch as touch_next};
ghost use Rattle.world_actors.specs.Seats.{IsSteady, next_touch};
ghost use Rattle.world_semantics.specs.Turns.{Alone, Calls, NotEnabled, aims_at, closed_so, closes, gives_up, grows, leaves_by, loads_by, loads_from, ready, stores_by, stores_to};

use crate::program::{Mode, ProgramActor, pieces};
use cells::Want;
use code_form::{Cell, Touch};
use remote_store::RawStore;
use world_memory::Lock;
use world_semantics::event::Step;
use world_semantics::hold::Hold;

impl<'a> ProgramActor<'a> {
    /// Closes what the scope holds.
    fn close_hold<S: RawStore>(&mut self, lock: &mut Lock<S>, scope: usize, hold: Hold) -> Step
        ensures { Turns S.content S.honest lock.old.memory lock.new.memory lock.old.berths lock.new.berths self.old self.new
            (λ s p a. closes p scope hold) ((lock.new ≡ lock.old) × (self.new ≡ self.old)) result }
    {
        if lock.memory.object(hold.object).count == 0 {
            Step::NotEnabled
        } else {
            lock.memory.close(hold.object);
            self.set_hold(scope, None);
            Step::Took
        }
    }

    /// Opens a hold of the object for the scope, whose aim completes where the object is in a frame.
    fn open_hold<S: RawStore>(&mut self, lock: &mut Lock<S>, scope: usize, object: usize) -> Step
        requires steady { IsSteady (next_touch self.old) }
        requires own { object < self.old.setting.limit }
        ensures { Turns S.content S.honest lock.old.memory lock.new.memory lock.old.berths lock.new.berths self.old self.new
            (λ s p a. aims_at self.old.setting p scope None (Some object)) ((lock.new ≡ lock.old) × (self.new ≡ self.old)) result }
    {
        let row = lock.memory.object(object);
        if row.count < 4 {
            lock.memory.open(object);
            self.set_hold(
                scope,
                Some(Hold {
                    object,
                    writes: false,
                }),
            );
            self.find(object, row.place.frame());
            Step::Took
        } else {
            Step::NotEnabled
        }
    }

    /// The instruction completes.
    fn complete<S: RawStore>(&mut self, lock: &mut Lock<S>) -> Step
        requires { IsSteady (next_touch self.old) }
        ensures { Turns S.content S.honest lock.old.memory lock.new.memory lock.old.berths lock.new.berths self.old self.new
            (λ s p a. Alone (finished_as self.old.setting p 0)) ((lock.new ≡ lock.old) × (self.new ≡ self.old)) result }
    {
        self.finish(0);
        Step::Took
    }

    /// The scope is to hold this object, or nothing.
    fn aim_at<S: RawStore>(
        &mut self,
        lock: &mut Lock<S>,
        scope: usize,
        object: Option<usize>,
    ) -> Step
        requires steady { IsSteady (next_touch self.old) }
        requires own { IfSome object (λ o. o < self.old.setting.limit) }
        ensures { Turns S.content S.honest lock.old.memory lock.new.memory lock.old.berths lock.new.berths self.old self.new
            (λ s p a. aims_at self.old.setting p scope (hold_at self.old.holds scope) object) ((lock.new ≡ lock.old) × (self.new ≡ self.old)) result }
    {
        match self.hold(scope) {
            None => match object {
                None => self.complete(lock),
                Some(object) => self.open_hold(lock, scope, object),
            },
            Some(hold) => match object {
                None => self.close_hold(lock, scope, hold),
                Some(object) => {
                    if hold.object == object {
                        self.complete(lock)
                    } else {
                        self.close_hold(lock, scope, hold)
                    }
                }
            },
        }
    }

    /// A load by the scope of the cell of this index of the object.
    fn load<S: RawStore>(
        &mut self,
        lock: &mut Lock<S>,
        scope: usize,
        object: usize,
        index: usize,
    ) -> Step
        requires { IsSteady (next_touch self.old) }
        ensures { Turns S.content S.honest lock.old.memory lock.new.memory lock.old.berths lock.new.berths self.old self.new
            (λ s p a. loads_by self.old.setting s p (hold_at self.old.holds scope) object index) ((lock.new ≡ lock.old) × (self.new ≡ self.old)) result }
    {
        match self.hold(scope) {
            None => Step::NotEnabled,
            Some(hold) => {
                if hold.object == object {
                    self.load_told(lock, object, index)
                } else {
                    Step::NotEnabled
                }
            }
        }
    }

    /// A load in the frame where the program was told the object to be.
    fn load_told<S: RawStore>(&mut self, lock: &mut Lock<S>, object: usize, index: usize) -> Step
        requires { IsSteady (next_touch self.old) }
        ensures { Turns S.content S.honest lock.old.memory lock.new.memory lock.old.berths lock.new.berths self.old self.new
            (λ s p a. loads_from self.old.setting s p (s.note object).frame index) ((lock.new ≡ lock.old) × (self.new ≡ self.old)) result }
    {
        match lock.memory.object(object).told {
            None => Step::NotEnabled,
            Some(frame) => {
                let value = lock.memory.cell(frame, index);
                self.finish(value);
                Step::Took
            }
        }
    }

    /// A store of the value by the scope into the cell of this index of the object.
    fn store<S: RawStore>(
        &mut self,
        lock: &mut Lock<S>,
        scope: usize,
        object: usize,
        index: usize,
        value: u64,
    ) -> Step
        requires steady { IsSteady (next_touch self.old) }
        requires index { index < self.old.setting.size }
        ensures { Turns S.content S.honest lock.old.memory lock.new.memory lock.old.berths lock.new.berths self.old self.new
            (λ s p a. stores_by self.old.setting s p scope (hold_at self.old.holds scope) object index value) ((lock.new ≡ lock.old) × (self.new ≡ self.old)) result }
    {
        match self.hold(scope) {
            None => Step::NotEnabled,
            Some(hold) => {
                if hold.object == object {
                    if hold.writes {
                        self.store_told(lock, object, index, value)
                    } else {
                        self.begin_write(lock, scope, object)
                    }
                } else {
                    Step::NotEnabled
                }
            }
        }
    }

    /// A store in the frame where the program was told the object to be.
    fn store_told<S: RawStore>(
        &mut self,
        lock: &mut Lock<S>,
        object: usize,
        index: usize,
        value: u64,
    ) -> Step
        requires steady { IsSteady (next_touch self.old) }
        requires index { index < self.old.setting.size }
        ensures { Turns S.content S.honest lock.old.memory lock.new.memory lock.old.berths lock.new.berths self.old self.new
            (λ s p a. stores_to self.old.setting p (s.note object).frame object index value) ((lock.new ≡ lock.old) × (self.new ≡ self.old)) result }
    {
        let row = lock.memory.object(object);
        match row.told {
            None => Step::NotEnabled,
            Some(frame) => {
                if row.writing {
                    lock.memory.put_cell(frame, index, value);
                    self.finish(0);
                    Step::Took
                } else {
                    Step::NotEnabled
                }
            }
        }
    }

    /// The scope begins to write.
    fn begin_write<S: RawStore>(&mut self, lock: &mut Lock<S>, scope: usize, object: usize) -> Step
        ensures { Turns S.content S.honest lock.old.memory lock.new.memory lock.old.berths lock.new.berths self.old self.new
            (λ s p a. Calls (Clears object) (λ t. holding p scope (Some (record { object = object; writes = true })))) ((lock.new ≡ lock.old) × (self.new ≡ self.old)) result }
    {
        if lock.memory.object(object).count == 0 {
            Step::NotEnabled
        } else {
            lock.memory.clear(object);
            self.set_hold(
                scope,
                Some(Hold {
                    object,
                    writes: true,
                }),
            );
            Step::Took
        }
    }

    /// Shuts the scope.
    fn leave<S: RawStore>(&mut self, lock: &mut Lock<S>, scope: usize) -> Step
        requires { IsSteady (next_touch self.old) }
        ensures { Turns S.content S.honest lock.old.memory lock.new.memory lock.old.berths lock.new.berths self.old self.new
            (λ s p a. leaves_by self.old.setting p scope (hold_at self.old.holds scope)) ((lock.new ≡ lock.old) × (self.new ≡ self.old)) result }
    {
        match self.hold(scope) {
            None => self.complete(lock),
            Some(hold) => {
                if lock.memory.object(hold.object).count == 0 {
                    Step::NotEnabled
                } else {
                    lock.memory.close(hold.object);
                    self.set_hold(scope, None);
                    self.finish(0);
                    Step::Took
                }
            }
        }
    }

    /// The object of a cell, where there is one.
    fn object_wanted(&self, wanted: Option<Cell>) -> Option<usize>
        requires { IsCellOrNone self.now.core wanted }
        ensures value { result ≡ option_map (λ c. object_in self.now.setting.size self.now.setting.base (sizes (allocations_of self.now.core)) c.reference c.index) wanted }
        ensures own { IfSome result (λ o. o < self.now.setting.limit) }
    {
        match wanted {
            None => None,
            Some(cell) => Some(self.object_of(cell)),
        }
    }

    /// The scope is to hold the piece of this cell, or nothing.
    fn aim<S: RawStore>(&mut self, lock: &mut Lock<S>, scope: usize, wanted: Option<Cell>) -> Step
        requires steady { IsSteady (next_touch self.old) }
        requires cell { IsCellOrNone self.old.core wanted }
        ensures { Turns S.content S.honest lock.old.memory lock.new.memory lock.old.berths lock.new.berths self.old self.new
            (λ s p a. ready self.old.setting s p a (touch.Aims scope wanted)) ((lock.new ≡ lock.old) × (self.new ≡ self.old)) result }
    {
        if scope < self.scopes() {
            let object = self.object_wanted(wanted);
            self.aim_at(lock, scope, object)
        } else {
            Step::NotEnabled
        }
    }

    /// A load of the cell by the scope.
    fn load_cell<S: RawStore>(&mut self, lock: &mut Lock<S>, scope: usize, cell: Cell) -> Step
        requires steady { IsSteady (next_touch self.old) }
        requires cell { IsCell self.old.core cell }
        ensures { Turns S.content S.honest lock.old.memory lock.new.memory lock.old.berths lock.new.berths self.old self.new
            (λ s p a. ready self.old.setting s p a (touch.Loads scope cell)) ((lock.new ≡ lock.old) × (self.new ≡ self.old)) result }
    {
        let object = self.object_of(cell);
        let index = cell.index % self.size() as u64;
        self.load(lock, scope, object, index as usize)
    }

    /// A store of the value into the cell by the scope.
    fn store_cell<S: RawStore>(
        &mut self,
        lock: &mut Lock<S>,
        scope: usize,
        cell: Cell,
        value: u64,
    ) -> Step
        requires steady { IsSteady (next_touch self.old) }
        requires cell { IsCell self.old.core cell }
        ensures { Turns S.content S.honest lock.old.memory lock.new.memory lock.old.berths lock.new.berths self.old self.new
            (λ s p a. ready self.old.setting s p a (touch.Stores scope cell value)) ((lock.new ≡ lock.old) × (self.new ≡ self.old)) result }
    {
        let object = self.object_of(cell);
        let index = cell.index % self.size() as u64;
        self.store(lock, scope, object, index as usize, value)
    }

    /// The next instruction is completed, which touches nothing, or memory is refused to it.
    fn go_plain<S: RawStore>(&mut self, lock: &mut Lock<S>) -> Step
        requires { next_touch self.old ≡ touch.Plain }
        ensures { Turns S.content S.honest lock.old.memory lock.new.memory lock.old.berths lock.new.berths self.old self.new
            (λ s p a. Alone (grows self.old.setting p a)) ((lock.new ≡ lock.old) × (self.new ≡ self.old)) result }
    {
        match self.proceed() {
            Ok(()) => Step::Took,
            Err(_refused) => {
                self.want_memory();
                Step::Took
            }
        }
    }

    /// The next instruction is completed, which stops the program.
    fn go_on<S: RawStore>(&mut self, lock: &mut Lock<S>) -> Step
        requires { IsSteady (next_touch self.old) }
        ensures { Turns S.content S.honest lock.old.memory lock.new.memory lock.old.berths lock.new.berths self.old self.new
            (λ s p a. Alone (grows self.old.setting p a)) ((lock.new ≡ lock.old) × (self.new ≡ self.old)) result }
    {
        self.finish(0);
        Step::Took
    }

    /// An allocation of this many cells.
    fn allocate<S: RawStore>(&mut self, lock: &mut Lock<S>, cells: u64) -> Step
        requires { next_touch self.old ≡ touch.Allocs cells }
        ensures { Turns S.content S.honest lock.old.memory lock.new.memory lock.old.berths lock.new.berths self.old self.new
            (λ s p a. ready self.old.setting s p a (touch.Allocs cells)) ((lock.new ≡ lock.old) × (self.new ≡ self.old)) result }
    {
        if self.next() + pieces(cells, self.size()) <= self.limit() {
            match self.extend(cells) {
                Ok(()) => Step::Took,
                Err(_refused) => {
                    self.want_memory();
                    Step::Took
                }
            }
        } else {
            self.set_mode(Mode::Wanted(Want::NoObjects));
            Step::Took
        }
    }

    /// Stops, behind a close for each hold.
    fn end<S: RawStore>(&mut self, lock: &mut Lock<S>) -> Step
        requires { IsSteady (next_touch self.old) }
        ensures { Turns S.content S.honest lock.old.memory lock.new.memory lock.old.berths lock.new.berths self.old self.new
            (λ s p a. ready self.old.setting s p a touch.Ends) ((lock.new ≡ lock.old) × (self.new ≡ self.old)) result }
    {
        match self.first_hold() {
            None => self.go_on(lock),
            Some((scope, hold)) => self.close_hold(lock, scope, hold),
        }
    }

    /// The next instruction.
    pub(crate) fn instruct<S: RawStore>(&mut self, lock: &mut Lock<S>) -> Step
        ensures { Turns S.content S.honest lock.old.memory lock.new.memory lock.old.berths lock.new.berths self.old self.new
            (λ s p a. cond (is_blocked_in p.core) NotEnabled (ready self.old.setting s p a (touch_next self.old.setting p))) ((lock.new ≡ lock.old) × (self.new ≡ self.old)) result }
    {
        if self.is_blocked() {
            return Step::NotEnabled;
        }
        match self.touch() {
            Touch::Plain => self.go_plain(lock),
            Touch::Hints(_) => self.complete(lock),
            Touch::Aims(scope, wanted) => self.aim(lock, scope, wanted),
            Touch::Loads(scope, cell) => self.load_cell(lock, scope, cell),
            Touch::Stores(scope, cell, value) => self.store_cell(lock, scope, cell, value),
            Touch::Leaves(scope) => self.leave(lock, scope),
            Touch::Allocs(cells) => self.allocate(lock, cells),
            Touch::Ends => self.end(lock),
            Touch::Wrong | Touch::Nothing => Step::NotEnabled,
        }
    }

    /// Its store failed: it closes the lowest of its holds, and with the last wants that.
    pub(crate) fn give_up<S: RawStore>(&mut self, lock: &mut Lock<S>) -> Step
        ensures { Turns S.content S.honest lock.old.memory lock.new.memory lock.old.berths lock.new.berths self.old self.new
            (λ s p a. gives_up p (first_hold p.holds)) ((lock.new ≡ lock.old) × (self.new ≡ self.old)) result }
    {
        match self.first_hold() {
            None => {
                self.set_mode(Mode::Wanted(Want::StoreFailed));
                Step::Took
            }
            Some((scope, hold)) => {
                if lock.memory.object(hold.object).count == 0 {
                    Step::NotEnabled
                } else {
                    lock.memory.close(hold.object);
                    self.set_hold(scope, None);
                    self.want_closed();
                    Step::Took
                }
            }
        }
    }

    /// With its last hold closed it wants that its store failed.
    fn want_closed(&mut self)
        ensures setting { self.new.setting ≡ self.old.setting }
        ensures closed { (p : Defined) → IsProgram self.old p → IsProgram self.new (closed_so p (first_hold p.holds)) }
    {
        if self.first_hold().is_none() {
            self.set_mode(Mode::Wanted(Want::StoreFailed));
        }
    }
}
