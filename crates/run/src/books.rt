// What a run keeps of its tokens, so that no move looks at all wires: the place of each token, who waits at each row, and
// who can move.
ghost use Rattle.std.specs.Prelude.{◌≡◌, ◌<◌, ◌≤◌, true, length, take, IfOk, slice_index_or};
ghost use Rattle.derivation.specs.Rows.{all_below};
ghost use Rattle.target.specs.Interface.{numbers_of};
ghost use Rattle.run.specs.Books.{FitFor, books_of, nobody, passed_in, sat, settled_in, start_books, stepped_in};

use basics::numbers::Wire;
use basics::sets::Mask;
use derivation::rows::Place;
use machine::machine::{Machine, Seat};
use std::alloc::{AllocError, Global};

// The wires that wait at the seats of a row: all of them as a set, and by seat. Seats fill in any order, so the
// filled ones are no front of a list; how many are held is how many ones the set has.
#[derive(Clone, Copy)]
pub(crate) struct Waiting {
    pub(crate) wires: u32,
    pub(crate) seats: [Wire; 3],
}

// The place of each wire's token, who waits at each row, and the set of wires that can move.
#[derive(Drop)]
pub(crate) struct Books {
    pub(crate) places: Vec<Place>,
    pub(crate) waiting: Vec<Waiting>,
    pub(crate) ready: u32,
}

// The machine stands beside the books, and `fit` ties them. As a ghost field of a struct that lends both it would be proved
// where each such struct is made, which is as often as it is asked of a step.
impl Books {
    // The books of tokens at their starts. The machine's derivation has so many rows.
    pub(crate) fn new(heap: Global, machine: &Machine, rows: usize) -> Result<Books, AllocError>
        requires { rows ≡ length machine.now.rows.items }
        ensures { IfOk result (λ b. books_of b ≡ start_books machine.now.types.items machine.now.rows.items) }
    {
        let starts = machine.starts();
        let places = Vec::from_slice(heap, starts)?;
        let free = Waiting {
            wires: 0,
            seats: [Wire(0); 3],
        };
        let waiting = vec![in heap; free; rows]?;
        let mut books = Books {
            places,
            waiting,
            ready: 0,
        };
        for (w, p) in starts.iter().enumerate() {
            books.settle(machine, Wire(w as u8), *p);
        }
        Ok(books)
    }

    // Wire w's token has come to a seat. The last to come makes all of them ready.
    fn sit(&mut self, seat: Seat, w: Wire)
        requires wire { w.0 < 32 }
        requires row { seat.row.0 < length self.old.waiting.items }
        requires seat { seat.number < 3 }
        ensures { books_of self.new ≡ sat (books_of self.old) seat.row.0 seat.number seat.arity w.0 }
    {
        let here = &mut self.waiting[seat.row.0 as usize];
        here.wires = here.wires.with(w.0);
        here.seats[seat.number as usize] = w;
        let all = here.wires;
        self.ready = if all.count_ones() == seat.arity as u32 {
            self.ready.union(all)
        } else {
            self.ready.without(w.0)
        };
    }

    // Wire w's token has come to p: it waits at a seat, or is home, or can go on.
    fn settle(&mut self, machine: &Machine, w: Wire, p: Place)
        requires wire { w.0 < 32 }
        requires fit { FitFor machine.now self.old }
        ensures { books_of self.new ≡ settled_in machine.now self.old w.0 p }
    {
        if let Some(seat) = machine.seat(p) {
            self.sit(seat, w);
        } else if machine.is_end(p) {
            self.ready = self.ready.without(w.0);
        } else {
            self.ready = self.ready.with(w.0);
        }
    }

    // Wire w's token goes on to the next place.
    pub(crate) fn step(&mut self, machine: &Machine, w: Wire)
        requires wire { w.0 < length self.old.places.items }
        requires fit { FitFor machine.now self.old }
        ensures { books_of self.new ≡ stepped_in machine.now self.old w.0 }
    {
        let i = w.0 as usize;
        if let Some(q) = machine.next(self.places[i]) {
            self.places[i] = q;
            self.settle(machine, w, q);
        }
    }

    // All tokens at the seats of a row go on together.
    pub(crate) fn pass(&mut self, machine: &Machine, seat: Seat)
        requires row { seat.row.0 < length machine.now.rows.items }
        requires arity { seat.arity ≤ 3 }
        requires wires { all_below (length self.old.places.items) (numbers_of (take seat.arity (slice_index_or self.old.waiting.items seat.row.0 nobody).seats)) ≡ true }
        requires fit { FitFor machine.now self.old }
        ensures { books_of self.new ≡ passed_in machine.now self.old seat.row.0 seat.arity }
    {
        let here = &mut self.waiting[seat.row.0 as usize];
        here.wires = 0;
        let wires = here.seats;
        for w in &wires[..seat.arity as usize] {
            self.step(machine, *w);
        }
    }
}
