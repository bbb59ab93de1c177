// A run: the tokens of a derivation on their way. It hands each gate that fires to a target, which comes with every call.
ghost use Rattle.std.specs.Prelude.{◌≡◌, ◌<◌, ◌≤◌, [], ◌∷◌, map, length, Some, None, MatchResult, OnOk, slice_index_or};
ghost use Rattle.std.specs.Simd.Lanes.{mask_l};
ghost use Rattle.std.specs.Option.{option_map};
ghost use Rattle.derivation.specs.Rows.{zero_row};
ghost use Rattle.derivation.specs.Starts.{starts as how_started};
ghost use Rattle.basics.specs.declared.refusal.Layer.TheVariants.{Run as RunLayer};
ghost use Rattle.basics.specs.declared.refusal.Refusal.TheVariants.{OutOfMemory};
ghost use Rattle.target.specs.Interface.{Kept};
ghost use Rattle.theory.specs.Tokens.{no_place};
ghost use Rattle.machine.specs.Calls.{seat_at};
ghost use Rattle.run.specs.Books.{Right, Underway, books_of};
ghost use Rattle.run.specs.Guarantee.{Guarantee};
ghost use Rattle.run.specs.Opening.{first_wires, is_given, is_one, not_taken, open_fault, opened, unfit, walkable};
ghost use Rattle.run.specs.Calls.{lowest};

use crate::books::Books;
use crate::call::Call;
use basics::numbers::{RowId, Wire};
use basics::refusal::{Layer, Refusal};
use derivation::holder::Holder;
use derivation::rows::{Place, Row, Rule, Start};
use machine::machine::{Machine, Seat};
use std::alloc::Global;
use target::interface::Target;

// Want of memory, whichever layer met it: a run tells it as its own.
const NO_MEMORY: Refusal = Refusal::OutOfMemory(Layer::Run);

// The set of wires 0 to n - 1. There may be 32, and a shift by 32 is none.
fn first_wires(n: u8) -> u32
    requires { n ≤ 32 }
    ensures { result ≡ first_wires n }
{
    if n < 32 { (1u32 << n) - 1 } else { u32::MAX }
}

// The wires that start given, and those that start at a one row. A loop: a fold would carry both sets.
fn start_sets(starts: &[Start]) -> (u32, u32)
    requires { length starts.now ≤ 32 }
    ensures { result ≡ (mask_l (map is_given starts.now), mask_l (map is_one starts.now)) }
{
    let mut given = 0;
    let mut ones = 0;
    for (w, start) in starts.iter().enumerate() {
        match *start {
            Start::Given => given |= 1u32 << w,
            Start::Zero => {}
            Start::One => ones |= 1u32 << w,
        }
    }
    (given, ones)
}

// Whether a rule can be walked on a kind of target.
fn is_walkable<T: Target>(rule: Rule) -> bool
    ensures { result ≡ walkable T.taken rule }
{
    match rule {
        Rule::Gate(gate) => T::takes(gate),
        _ => true,
    }
}

// The lowest row whose gate a kind of target does not take. An Option, as the answer of a search: check_fit makes the
// refusal of what it finds.
fn gate_not_taken<T: Target>(rows: &[Row]) -> Option<RowId>
    requires { length rows.now ≤ 128 }
    ensures { result ≡ option_map (λ n. record { 0 = n }) (not_taken T.taken 0 rows.now) }
{
    let r = rows.iter().position(|row| !is_walkable::<T>(row.rule))?;
    Some(RowId(r as u8))
}

// Whether a target can take the run of a derivation, before it is asked to begin.
fn check_fit<T: Target>(holder: &Holder, target: &mut T) -> Result<(), Refusal>
    ensures value { let why = unfit holder.now.types.items holder.now.rows.items T.taken (T.view target.old) in MatchResult result (λ _. why ≡ None) (λ e. why ≡ Some e) }
    ensures same { target.new ≡ target.old }
{
    let wires = holder.wires();
    if target.width() < wires {
        return Err(Refusal::TooNarrow(wires));
    }
    let gates = holder.gate_rows();
    if target.capacity() < gates as u32 {
        return Err(Refusal::TooSmall(gates));
    }
    if let Some(row) = gate_not_taken::<T>(holder.rows()) {
        return Err(Refusal::GateNotTaken(row));
    }
    Ok(())
}

// A derivation with its machine, its tokens on their way, how each wire started, and the moves so far.
#[derive(Drop)]
pub struct Run {
    pub(crate) machine: Machine,
    pub(crate) books: Books,
    pub(crate) starts: Vec<Start>,
    pub(crate) moves: u32,
    ghost started: { starts.items ≡ how_started machine.types.items machine.rows.items },
    ghost reached: { Underway machine.types.items machine.rows.items books.places.items moves },
    ghost kept: { ∥ Right machine.types.items machine.rows.items (books_of books) ∥₁ },
}

// Each call through `&mut self` promises in its clause `derivation` that the machine stays; no field could say what a call
// leaves.
impl Run {
    ghost use Rattle.run.specs.Answers.{Fresh, MoveAnswers, OpenAnswers, after_call_in, after_calls_in, move_in, stage_of, sweep_in};

    // A run over the derivation of a holder, with no move made yet.
    fn over(heap: Global, holder: &Holder) -> Result<Run, Refusal>
        ensures { MatchResult result (Fresh holder.now.types.items holder.now.rows.items) (λ e. e ≡ OutOfMemory RunLayer) }
    {
        let machine = Machine::new(heap, holder).map_err(|_| NO_MEMORY)?;
        let books = Books::new(heap, &machine, holder.rows().len()).map_err(|_| NO_MEMORY)?;
        let starts = holder.starts(heap).map_err(|_| NO_MEMORY)?;
        Ok(Run {
            machine,
            books,
            starts,
            moves: 0,
        })
    }

    // A run over a new holder.
    pub fn new(heap: Global) -> Result<Run, Refusal>
        ensures { MatchResult result (Fresh [] (zero_row ∷ [])) (λ e. e ≡ OutOfMemory RunLayer) }
    {
        let holder = Holder::new(heap).map_err(|_| NO_MEMORY)?;
        Run::over(heap, &holder)
    }

    // Copies the derivation of a holder into the run and begins the target with its wires.
    pub fn open<T: Target>(
        &mut self,
        heap: Global,
        holder: &Holder,
        target: &mut T,
    ) -> Result<(), Refusal>
        ensures answer { OpenAnswers (open_fault holder.now.types.items holder.now.rows.items T.taken (T.view target.old)) (opened holder.now.types.items holder.now.rows.items T.begun (T.view target.old)) result (stage_of self.new (T.view target.new)) }
        ensures derivation { OnOk result ((self.new.machine.types.items ≡ holder.now.types.items) × (self.new.machine.rows.items ≡ holder.now.rows.items)) }
        ensures run { Kept result self.old self.new }
        ensures target { Kept result target.old target.new }
        ensures guarantee { OnOk result (Guarantee T.taken T.begun T.applied holder.now.types.items holder.now.rows.items (T.view target.old)) }
    {
        check_fit(holder, target)?;
        let run = Run::over(heap, holder)?;
        let (given, ones) = start_sets(&run.starts);
        target.begin(first_wires(holder.wires()), given, ones)?;
        *self = run;
        Ok(())
    }

    // The move of a wire whose token waits at a seat: if all seats are held, their tokens pass together, and the gate is
    // applied to their wires in the order of the seats.
    fn fire<T: Target>(&mut self, target: &mut T, w: Wire, seat: Seat) -> Result<(), Refusal>
        requires wire { w.0 < length self.old.books.places.items }
        requires seat { seat_at self.old.machine.types.items self.old.machine.rows.items (slice_index_or self.old.books.places.items w.0 no_place) ≡ Some seat }
        ensures answer { MoveAnswers (move_in T.taken T.applied self.old (T.view target.old) w.0) (stage_of self.old (T.view target.old)) result (stage_of self.new (T.view target.new)) }
        ensures derivation { self.new.machine ≡ self.old.machine }
    {
        let waiting = self.books.waiting[seat.row.0 as usize];
        if waiting.wires.count_ones() != seat.arity as u32 {
            return Err(Refusal::SeatEmpty(w));
        }
        // Every seat is one of a gate row.
        let gate = self.machine.gate(seat.row).unwrap();
        target.apply(gate, &waiting.seats[..seat.arity as usize])?;
        self.books.pass(&self.machine, seat);
        self.moves += 1;
        Ok(())
    }

    // Makes the one move that a wire's token has.
    pub fn move_wire<T: Target>(&mut self, target: &mut T, w: Wire) -> Result<(), Refusal>
        ensures answer { MoveAnswers (move_in T.taken T.applied self.old (T.view target.old) w.0) (stage_of self.old (T.view target.old)) result (stage_of self.new (T.view target.new)) }
        ensures derivation { self.new.machine ≡ self.old.machine }
    {
        let place = self.place(w)?;
        if self.machine.is_end(place) {
            return Err(Refusal::AtHome(w));
        }
        if let Some(seat) = self.machine.seat(place) {
            return self.fire(target, w, seat);
        }
        self.books.step(&self.machine, w);
        self.moves += 1;
        Ok(())
    }

    // The lowest wire that can move.
    fn lowest(&self) -> Option<Wire>
        ensures { result ≡ option_map (λ n. record { 0 = n }) (lowest self.now.machine.types.items self.now.machine.rows.items self.now.books.places.items) }
    {
        let ready = self.books.ready;
        if ready == 0 {
            return None;
        }
        Some(Wire(ready.trailing_zeros() as u8))
    }

    // Moves the lowest wire that can move, again and again, at most as often as the budget says. Answers the moves made, and
    // whether all tokens are home.
    pub fn sweep<T: Target>(&mut self, target: &mut T, budget: u32) -> Result<(u32, bool), Refusal>
        ensures answer { result ≡ (sweep_in T.taken T.applied self.old (T.view target.old) budget).answer }
        ensures after { stage_of self.new (T.view target.new) ≡ (sweep_in T.taken T.applied self.old (T.view target.old) budget).after }
        ensures derivation { self.new.machine ≡ self.old.machine }
    {
        for made in 0..budget {
            let Some(w) = self.lowest() else {
                return Ok((made, self.is_home()));
            };
            self.move_wire(target, w)?;
        }
        Ok((budget, self.is_home()))
    }

    // Makes one call, whatever it answers.
    fn make<T: Target>(&mut self, target: &mut T, call: Call)
        ensures after { stage_of self.new (T.view target.new) ≡ after_call_in T.taken T.applied self.old (T.view target.old) call }
        ensures derivation { self.new.machine ≡ self.old.machine }
    {
        match call {
            Call::Move(w) => {
                let _ = self.move_wire(target, w);
            }
            Call::Sweep(budget) => {
                let _ = self.sweep(target, budget);
            }
        }
    }

    // Makes some calls one after the other, whatever they answer.
    pub fn replay<T: Target>(&mut self, target: &mut T, calls: &[Call])
        ensures after { stage_of self.new (T.view target.new) ≡ after_calls_in T.taken T.applied self.old (T.view target.old) calls.now }
        ensures derivation { self.new.machine ≡ self.old.machine }
    {
        for call in calls {
            self.make(target, *call);
        }
    }
}
