// Reachability over any graph of numbered nodes, in marks that the caller lends and gets back zeroed.
#![tactic(auto)]

ghost use Rattle.std.specs.Prelude.{◌≡◌, ℕ, ◌+◌, ◌<◌, ◌≤◌, Bool, List, length, take, Option, MatchOption, slice_index, slice_set};
ghost use Rattle.std.specs.Fn.{FnOnceReturnsAtMut};
ghost use Rattle.search.specs.Paths.{Edge, Walk, Unstopped};
ghost use Rattle.search.specs.Stops.{open_slots};
ghost use Rattle.search.specs.Marks.{Clear, marked, Reached, Enough, Lent, Searched, Given, Answered};

use refusal::{Refusal, Rule};

// Fewer marks than nodes.
const FEW_MARKS: Refusal = (Rule::Marks, 0);

// How many nodes there can be: a node is a `u8`.
const NODES: usize = 256;

// Marks that are enough for a search: one for each node.
pub type NodeMarks = [u8; NODES];

// A graph of numbered nodes. Each node has numbered slots, and a slot leads to a node or nowhere.
pub trait Graph {
    // How many slots a node has.
    ghost slots: { Self → ℕ → ℕ };

    // Where a slot of a node leads.
    ghost leads: { Self → ℕ → ℕ → Option ℕ };

    fn slot_count(&self, node: u8) -> u32
        ensures { result ≡ slots self.now node };

    // A search asks only for slots that the node has; for any other the answer is free.
    fn slot(&self, node: u8, slot: u32) -> Option<u8>
        ensures { slot < slots self.now node → result ≡ leads self.now node slot };
}

// Nodes that a path may be asked not to pass.
pub trait Stops {
    ghost stop: { Self → ℕ → Bool };

    fn is_stop(&self, node: u8) -> bool
        ensures { result ≡ stop self.now node };
}

// Work that is done by searches. What it answers is a proposition, since nothing is known of a closure but what its calls give.
pub trait Searches {
    type Answer;

    ghost gives: { Self → Self.Answer → Type 0 };

    fn answer(&self, guard: &mut NodeGuard) -> Self::Answer
        ensures { gives self.now result };
}

// Work that is done in the marks themselves, one for each node. `gives` ties what they hold before to the answer and to what they hold after.
pub trait Borrows: Drop {
    type Answer;

    ghost gives: { Self → List ℕ → Self.Answer → List ℕ → Type 0 };

    fn answer(self, marks: &mut NodeMarks) -> Self::Answer
        ensures { gives self marks.old result marks.new };
}

// A guard of the marks that a caller lends for searches. Its end zeroes every one of them,
// whatever they held, however many there are, and whichever way leads out.
// A search needs a guard, this or the one below, so none leaves marks behind. `named` says that the guard still holds the marks it was made over:
// like `size`, it speaks of two states, so that no field of the guard could say it for all methods.
pub struct Marks<'a> {
    all: &'a mut [u8],
}

impl Drop for Marks<'_> {
    fn drop(self)
        ensures { Clear self.exit.0.now }
    {
        let Marks { all } = self;
        all.fill(0);
    }
}

impl<'a> Marks<'a> {
    pub fn over(all: &'a mut [u8]) -> Marks<'a>
        ensures same { result.all.now ≡ all.old }
        ensures named { result.all.ghost_name ≡ all.entry.ghost_name }
    {
        Marks { all }
    }
}

impl Marks<'_> {
    // Refuses where there are fewer marks than nodes.
    pub fn check_len(&self) -> Result<(), Refusal>
        ensures { Enough (length self.now.all.now) result }
    {
        if self.all.len() < NODES {
            Err(FEW_MARKS)
        } else {
            Ok(())
        }
    }

    // What the work answers, with one mark for each node. What the marks hold afterwards is left open, until the guard ends.
    // Refused where there are fewer marks than nodes; then they are as they were.
    pub fn search<W: Searches>(&mut self, work: &W) -> Result<W::Answer, Refusal>
        ensures answer { Given (W.Searches.gives work.now) self.old.all.now self.new.all.now result }
        ensures size { length self.new.all.now ≡ length self.old.all.now }
        ensures named { self.new.all.ghost_name ≡ self.old.all.ghost_name }
    {
        search(self.all, work)
    }

    // Lends one mark for each node to the work, and gives back what it answers. The marks past those are as they were.
    // Refused where there are fewer marks than nodes; then all are as they were.
    pub fn lend<W: Borrows>(&mut self, work: W) -> Result<W::Answer, Refusal>
        ensures answer { Lent (W.Borrows.gives work (take 256 self.old.all.now)) self.old.all.now self.new.all.now result }
        ensures size { length self.new.all.now ≡ length self.old.all.now }
        ensures named { self.new.all.ghost_name ≡ self.old.all.ghost_name }
    {
        lend(self.all, |marks| work.answer(marks))
    }

    // Lends one mark for each node to `f`, and gives back what it returns.
    // Refused where there are fewer marks than nodes; then they are as they were.
    fn lend_to<R, F: FnOnce(&mut NodeMarks) -> R>(&mut self, f: F) -> Result<R, Refusal>
        requires { F.IsAlwaysCallable f }
        ensures answer { Lent (FnOnceReturnsAtMut F.FnOnce f (take 256 self.old.all.now)) self.old.all.now self.new.all.now result }
        ensures size { length self.new.all.now ≡ length self.old.all.now }
        ensures named { self.new.all.ghost_name ≡ self.old.all.ghost_name }
    {
        lend(self.all, f)
    }

    // Marks exactly the nodes to which a path leads from `from`, whatever the marks held.
    // Refused where there are fewer marks than nodes; then every mark is zero.
    pub fn follow<G: Graph>(&mut self, graph: &G, from: u8) -> Result<(), Refusal>
        ensures answer { Searched (Walk (Edge (G.slots graph.now) (G.leads graph.now)) from) (length self.old.all.now) self.new.all.now result }
        ensures size { length self.new.all.now ≡ length self.old.all.now }
        ensures named { self.new.all.ghost_name ≡ self.old.all.ghost_name }
    {
        self.all.fill(0);
        self.lend_to(|marks| follow(graph, from, marks))
    }

    // As `follow`, for the paths with no stop between their ends.
    #[tactic(auto, using(crate::proofs::Stopping::searched))]
    pub fn follow_unstopped<G: Graph, S: Stops>(
        &mut self,
        graph: &G,
        stops: &S,
        from: u8,
    ) -> Result<(), Refusal>
        ensures answer { Searched (Unstopped (Edge (G.Graph.slots graph.now) (G.Graph.leads graph.now)) (S.Stops.stop stops.now) from) (length self.old.all.now) self.new.all.now result }
        ensures size { length self.new.all.now ≡ length self.old.all.now }
        ensures named { self.new.all.ghost_name ≡ self.old.all.ghost_name }
    {
        let graph = Open { graph, stops, from };
        self.follow(&graph, from)
    }

    // Whether a node is marked; one past the marks is not.
    pub fn is_marked(&self, node: u8) -> bool
        ensures { result ≡ marked self.now.all.now node }
    {
        self.all.get(node as usize).is_some_and(|mark| *mark != 0)
    }
}

// What `Marks::search` does with the slice of its guard.
fn search<W: Searches>(all: &mut [u8], work: &W) -> Result<W::Answer, Refusal>
    ensures answer { Given (W.Searches.gives work.now) all.old all.new result }
    ensures size { length all.new ≡ length all.old }
{
    match all.first_chunk_mut() {
        Some(marks) => Ok(work.answer(&mut NodeGuard::over(marks))),
        None => Err(FEW_MARKS),
    }
}

// What `Marks::lend` and `lend_to` do with the slice of their guard: a proof needs to know no more of a guard than that.
fn lend<R, F: FnOnce(&mut NodeMarks) -> R>(all: &mut [u8], f: F) -> Result<R, Refusal>
    requires { F.IsAlwaysCallable f }
    ensures { Lent (FnOnceReturnsAtMut F.FnOnce f (take 256 all.old)) all.old all.new result }
{
    match all.first_chunk_mut() {
        Some(marks) => Ok(f(marks)),
        None => Err(FEW_MARKS),
    }
}

// Marks exactly the nodes to which a path leads from `from`, whatever the marks held. Only a guard may call it.
#[tactic(auto, using(crate::proofs::Filling::clear_zeros))]
fn follow<G: Graph>(graph: &G, from: u8, marks: &mut NodeMarks)
    ensures { Reached (Walk (Edge (G.slots graph.now) (G.leads graph.now)) from) marks.new }
{
    marks.fill(0);
    spread(graph, from, marks);
}

// A guard of marks that are enough for a search, as their type says: a search in them cannot fail.
// Its end zeroes them, as that of `Marks` does, and `named` says what it says there.
pub struct NodeGuard<'a> {
    all: &'a mut NodeMarks,
}

impl Drop for NodeGuard<'_> {
    #[tactic(auto, using(crate::proofs::Filling::clear_zeros))]
    fn drop(self)
        ensures { Clear self.exit.0.now }
    {
        let NodeGuard { all: nodes } = self;
        nodes.fill(0);
    }
}

impl<'a> NodeGuard<'a> {
    pub fn over(all: &'a mut NodeMarks) -> NodeGuard<'a>
        ensures same { result.all.now ≡ all.old }
        ensures named { result.all.ghost_name ≡ all.entry.ghost_name }
    {
        NodeGuard { all }
    }
}

impl NodeGuard<'_> {
    // Marks exactly the nodes to which a path leads from `from`, whatever the marks held.
    pub fn follow<G: Graph>(&mut self, graph: &G, from: u8)
        ensures reached { Reached (Walk (Edge (G.slots graph.now) (G.leads graph.now)) from) self.new.all.now }
        ensures named { self.new.all.ghost_name ≡ self.old.all.ghost_name }
    {
        follow(graph, from, self.all);
    }

    // As `follow`, for the paths with no stop between their ends.
    #[tactic(auto, using(crate::proofs::Stopping::unstopped))]
    pub fn follow_unstopped<G: Graph, S: Stops>(&mut self, graph: &G, stops: &S, from: u8)
        ensures reached { Reached (Unstopped (Edge (G.Graph.slots graph.now) (G.Graph.leads graph.now)) (S.Stops.stop stops.now) from) self.new.all.now }
        ensures named { self.new.all.ghost_name ≡ self.old.all.ghost_name }
    {
        let graph = Open { graph, stops, from };
        self.follow(&graph, from);
    }

    // Whether a node is marked.
    pub fn is_marked(&self, node: u8) -> bool
        ensures { result ≡ marked self.now.all.now node }
    {
        is_marked(self.all, node)
    }
}

// Whether a node is marked.
fn is_marked(marks: &NodeMarks, node: u8) -> bool
    ensures { result ≡ marked marks.now node }
{
    marks[node as usize] != 0
}

// A graph without the slots of its stops. The start keeps its own, since a path may begin at a stop.
#[derive(Drop)]
struct Open<'g, 's, G, S> {
    graph: &'g G,
    stops: &'s S,
    from: u8,
}

impl<G: Graph, S: Stops> Graph for Open<'_, '_, G, S> {
    ghost slots = { λ s. open_slots (S.Stops.stop s.stops.now) s.from (G.Graph.slots s.graph.now) };

    ghost leads = { λ s. G.Graph.leads s.graph.now };

    fn slot_count(&self, node: u8) -> u32 {
        if self.stops.is_stop(node) && node != self.from {
            0
        } else {
            self.graph.slot_count(node)
        }
    }

    fn slot(&self, node: u8, slot: u32) -> Option<u8> {
        self.graph.slot(node, slot)
    }
}

// Whether a path leads from `from` to `to`. Refused where there are fewer marks than nodes.
pub fn reaches<G: Graph>(graph: &G, from: u8, to: u8, marks: &mut [u8]) -> Result<bool, Refusal>
    ensures answer { Answered (Walk (Edge (G.slots graph.now) (G.leads graph.now)) from to) (length marks.old) result }
    ensures clear { Clear marks.new }
{
    let mut guard = Marks::over(marks);
    guard.follow(graph, from)?;
    Ok(guard.is_marked(to))
}

// The nodes that wait, oldest first, behind those that have had their turn. It holds each node once at most.
// Not an `ArrayVec`, which would need the head beside it all the same. `long` is a field, since the search's proof knows of a queue only what its fields say.
#[derive(Drop)]
struct Queue {
    nodes: [u8; NODES],
    head: usize,
    tail: usize,
    ghost few: { tail ≤ 256 },
    ghost long: { length nodes ≡ 256 },
}

impl Queue {
    fn of(start: u8) -> Queue
        ensures first { slice_index result.nodes 0 ≡ start }
        ensures head { result.head ≡ 0 }
        ensures tail { result.tail ≡ 1 }
    {
        Queue {
            nodes: [start; NODES],
            head: 0,
            tail: 1,
        }
    }

    fn push(&mut self, node: u8)
        requires { self.old.tail < 256 }
        ensures nodes { self.new.nodes ≡ slice_set self.old.nodes self.old.tail node }
        ensures head { self.new.head ≡ self.old.head }
        ensures tail { self.new.tail ≡ self.old.tail + 1 }
    {
        self.nodes[self.tail] = node;
        self.tail += 1;
    }

    // The oldest of the nodes that wait, whose turn it is then.
    fn pop(&mut self) -> Option<u8>
        ensures same { (self.new.nodes ≡ self.old.nodes) × (self.new.tail ≡ self.old.tail) }
        ensures next { MatchOption result (self.old.tail ≤ self.old.head) (λ node. (self.old.head < self.old.tail) × (slice_index self.old.nodes self.old.head ≡ node) × (self.new.head ≡ self.old.head + 1)) }
    {
        if self.head >= self.tail {
            return None;
        }
        let node = self.nodes[self.head];
        self.head += 1;
        Some(node)
    }
}

// Marks each node to which a path leads from `from`, breadth first, in marks that are all zero.
// The start is queued at the beginning and each other node as it is marked, so none comes into the queue twice.
fn spread<G: Graph>(graph: &G, from: u8, marks: &mut NodeMarks)
    requires { Clear marks.old }
    ensures { Reached (Walk (Edge (G.slots graph.now) (G.leads graph.now)) from) marks.new }
{
    let mut queue = Queue::of(from);
    while let Some(node) = queue.pop() {
        // A loop over a `filter_map` was tried: here, under a type parameter, the check cannot state its invariant.
        for slot in 0..graph.slot_count(node) {
            if let Some(next) = graph.slot(node, slot) {
                if marks[next as usize] == 0 {
                    marks[next as usize] = 1;
                    if next != from {
                        queue.push(next);
                    }
                }
            }
        }
    }
}
