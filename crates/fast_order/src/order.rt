//! The order in which the lists of templates can be put together.

ghost use Rattle.std.specs.Prelude.{◌≡◌, ◌≤◌, ◌<◌, ◌+◌, ◌-◌, ◌++◌, ◌∷◌, [], ◌⊎◌, ◌↔◌, ℕ, IfOk, IsSome, IsTrue, MatchOption, MatchResult, OnOk, Some, None, Vec, drop, true, length, set, slice_get, take};
ghost use Rattle.std.specs.declared.alloc.Global.{Global};
ghost use Rattle.fast_order.specs.Order.{AreWithin, IsFirstOnCycle, IsOrder, IsReference};
ghost use Rattle.fast_order.specs.Search.{Advances, IsDone, KeepsSeen, Stands, closed, entered, set_all, state_of, visiting};
ghost use Rattle.fast_order.specs.declared.order.Mark.TheVariants as mark;

use std::alloc::{AllocError, Global};

/// How far a search has come with a template.
#[derive(Clone, Copy)]
pub(crate) enum Mark {
    Unseen,
    /// Its place among those that are open.
    Open(usize),
    /// Whether it lies on a cycle.
    Done(bool),
}

/// A template on the path of a search.
#[derive(Clone, Copy)]
pub(crate) struct Visit {
    node: usize,
    /// Its place among those that are open.
    place: usize,
    /// The number of its reference that is followed next.
    next: usize,
}

/// A search depth first along references.
///
/// What is open stands in groups, each of which lies on cycles of its own if it has more than one;
/// a group is done once nothing in it leads out of it but to what is done.
#[derive(Drop)]
pub(crate) struct Search {
    marks: Vec<Mark>,
    opened: Vec<usize>,
    // where the groups of what is open start
    starts: Vec<usize>,
    path: Vec<Visit>,
    // what is done, each behind those that it refers to if it lies on no cycle
    order: Vec<usize>,
}

/// An order in which each template stands once, behind those that it refers to, or the first that lies on
/// a cycle.
///
/// # Errors
///
/// Where memory is refused.
pub fn order_of(
    alloc: Global,
    references: &[Vec<usize>],
) -> Result<Result<Vec<usize>, usize>, AllocError>
    requires { AreWithin references.now }
    ensures { IfOk result (λ answer. MatchResult answer
        (λ order. IsOrder references.now order.items)
        (λ first. IsFirstOnCycle references.now first)) }
{
    let search = searched(alloc, references)?;
    match first_on_cycle(&search.marks) {
        Some(first) => Ok(Err(first)),
        None => Ok(Ok(search.order)),
    }
}

// The first that is known to lie on a cycle.
fn first_on_cycle(marks: &[Mark]) -> Option<usize>
    ensures { MatchOption result
        ((t : ℕ) → ¬ (slice_get marks.now t ≡ Some (mark.Done true)))
        (λ t. (slice_get marks.now t ≡ Some (mark.Done true)) × ((u : ℕ) → u < t
        → ¬ (slice_get marks.now u ≡ Some (mark.Done true)))) }
{
    for node in 0..marks.len() {
        if let Mark::Done(true) = marks[node] {
            return Some(node);
        }
    }
    None
}

// Searches from each template in turn.
fn searched(alloc: Global, references: &[Vec<usize>]) -> Result<Search, AllocError>
    requires { AreWithin references.now }
    ensures { IfOk result (λ search. Stands references.now (state_of search) None
        × ((v : ℕ) → v < length references.now → IsDone search.marks.items v)) }
{
    let mut search = Search {
        marks: vec![in alloc; Mark::Unseen; references.len()]?,
        opened: Vec::new(alloc),
        starts: Vec::new(alloc),
        path: Vec::new(alloc),
        order: Vec::new(alloc),
    };
    for root in 0..references.len() {
        search.search_from(references, root)?;
    }
    Ok(search)
}

impl Search {
    // Searches from a template, if it was not met yet.
    fn search_from(&mut self, references: &[Vec<usize>], root: usize) -> Result<(), AllocError>
        requires within { AreWithin references.now }
        requires root_within { root < length references.now }
        requires stands { Stands references.now (state_of self.old) None }
        requires at_rest { self.old.path.items ≡ [] }
        ensures stands { OnOk result (Stands references.now (state_of self.new) None) }
        ensures at_rest { OnOk result (self.new.path.items ≡ []) }
        ensures done { OnOk result (IsDone self.new.marks.items root) }
        ensures seen { OnOk result (KeepsSeen (state_of self.old) (state_of self.new)) }
    {
        if let Mark::Unseen = self.marks[root] {
            self.enter(root)?;
            self.walk(references)?;
        }
        Ok(())
    }

    // Goes on until nothing is on the path.
    fn walk(&mut self, references: &[Vec<usize>]) -> Result<(), AllocError>
        requires within { AreWithin references.now }
        requires stands { Stands references.now (state_of self.old) None }
        ensures stands { OnOk result (Stands references.now (state_of self.new) None) }
        ensures at_rest { OnOk result (self.new.path.items ≡ []) }
        ensures seen { OnOk result (KeepsSeen (state_of self.old) (state_of self.new)) }
    {
        while let Some(visit) = self.path.pop() {
            self.go_on(references, visit)?;
        }
        Ok(())
    }

    // One step from the end of the path, which was taken off it.
    fn go_on(&mut self, references: &[Vec<usize>], visit: Visit) -> Result<(), AllocError>
        requires within { AreWithin references.now }
        requires stands { Stands references.now (visiting (state_of self.old) visit) None }
        ensures { OnOk result (Advances references.now (visiting (state_of self.old) visit)
            (state_of self.new)) }
    {
        match reference(references, visit.node, visit.next) {
            Some(other) => {
                self.path.push(Visit {
                    node: visit.node,
                    place: visit.place,
                    next: visit.next + 1,
                })?;
                match self.marks[other] {
                    Mark::Unseen => self.enter(other)?,
                    Mark::Open(place) => drop_above(&mut self.starts, place),
                    Mark::Done(_) => (),
                }
                Ok(())
            }
            None => self.leave(references, visit),
        }
    }

    // Opens one that was not met, as a group of its own.
    fn enter(&mut self, node: usize) -> Result<(), AllocError>
        requires { node < length self.old.marks.items }
        ensures { OnOk result (state_of self.new ≡ entered node (state_of self.old)) }
    {
        let place = self.opened.len();
        self.marks[node] = Mark::Open(place);
        self.opened.push(node)?;
        self.starts.push(place)?;
        self.path.push(Visit {
            node,
            place,
            next: 0,
        })?;
        Ok(())
    }

    // Leaves one whose references were all followed, and with the first of a group the whole group.
    fn leave(&mut self, references: &[Vec<usize>], visit: Visit) -> Result<(), AllocError>
        requires within { AreWithin references.now }
        requires stands { Stands references.now (visiting (state_of self.old) visit) None }
        requires followed { (k w : ℕ) → IsReference references.now visit.node k w → k < visit.next }
        ensures { OnOk result (Advances references.now (visiting (state_of self.old) visit)
            (state_of self.new)) }
    {
        if is_last(&self.starts, visit.place) {
            let on_cycle = visit.place < self.opened.len() - 1
                || refers_to_itself(references, visit.node);
            self.close(visit.place, on_cycle)?;
        }
        Ok(())
    }

    // Closes the last group.
    fn close(&mut self, start: usize, on_cycle: bool) -> Result<(), AllocError>
        requires start_within { start ≤ length self.old.opened.items }
        requires marked { (i v : ℕ) → slice_get self.old.opened.items i ≡ Some v
            → v < length self.old.marks.items }
        ensures { OnOk result (state_of self.new ≡ closed start on_cycle (state_of self.old)) }
    {
        self.starts.pop();
        let mut group = self.opened.split_off(start)?;
        mark_all(&mut self.marks, &group, Mark::Done(on_cycle));
        self.order.append(&mut group)
    }
}

// Whether a place is the last of some.
fn is_last(places: &[usize], place: usize) -> bool
    ensures { IsTrue result ↔ (slice_get places.now (length places.now - 1) ≡ Some place) }
{
    match places.last() {
        Some(last) => *last == place,
        None => false,
    }
}

// Gives all of some templates one mark.
fn mark_all(marks: &mut [Mark], nodes: &[usize], mark: Mark)
    requires { (p v : ℕ) → slice_get nodes.now p ≡ Some v → v < length marks.old }
    ensures { marks.new ≡ set_all marks.old nodes.now mark }
{
    for node in nodes {
        marks[*node] = mark;
    }
}

// Takes the starts that lie above a place off.
fn drop_above(starts: &mut Vec<usize>, place: usize)
    requires { (p q b c : ℕ) → slice_get starts.old.items p ≡ Some b
        → slice_get starts.old.items q ≡ Some c → p < q → b < c }
    ensures rest { (p b : ℕ) → slice_get starts.new.items p ≡ Some b
        → (slice_get starts.old.items p ≡ Some b) × (b ≤ place) }
    ensures gone { (p b : ℕ) → slice_get starts.old.items p ≡ Some b
        → (slice_get starts.new.items p ≡ Some b) ⊎ (place < b) }
{
    while let Some(start) = starts.last() {
        if *start <= place {
            return;
        }
        starts.pop();
    }
}

// A reference of a template, by its number from 0.
fn reference(references: &[Vec<usize>], node: usize, number: usize) -> Option<usize>
    requires { node < length references.now }
    ensures fits { IsSome result → number < 18446744073709551615 }
    ensures value { MatchOption result
        ((k w : ℕ) → IsReference references.now node k w → k < number)
        (λ other. IsReference references.now node number other) }
{
    place_at(row_of(references, node), number)
}

fn place_at(places: &[usize], number: usize) -> Option<usize>
    ensures fits { IsSome result → number < 18446744073709551615 }
    ensures value { result ≡ slice_get places.now number }
{
    places.get(number).copied()
}

// Whether a template refers to itself.
fn refers_to_itself(references: &[Vec<usize>], node: usize) -> bool
    requires { node < length references.now }
    ensures { IsTrue result ↔ ((k : ℕ) × IsReference references.now node k node) }
{
    has_place(row_of(references, node), node)
}

fn has_place(places: &[usize], place: usize) -> bool
    ensures { IsTrue result ↔ ((k : ℕ) × (slice_get places.now k ≡ Some place)) }
{
    for other in places {
        if *other == place {
            return true;
        }
    }
    false
}

// The references of a template.
fn row_of(references: &[Vec<usize>], node: usize) -> &[usize]
    requires { node < length references.now }
    ensures { (row : Vec ℕ Global) × (slice_get references.now node ≡ Some row) × (row.items
        ≡ result.now) }
{
    &references[node]
}
