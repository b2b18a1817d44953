ghost use Rattle.std.specs.Prelude.{◌≡◌, min, length, if◌then◌else◌, Some, None, ◌==◌, nat_eq, slice_index, slice_index_or, slice_set};

use crate::{Pair, link, reach};
use refusal::{Refusal, numbered};
use search::{Borrows, Graph, Marks, NodeGuard, NodeMarks, Stops, reaches};
use std::process::Abort;

// A graph by the list of its edges, of which it takes the first 1,000: each node has a slot for every edge, and its own lead on.
#[derive(Drop)]
struct Table<'a> {
    edges: &'a [(u8, u8)],
}

impl Graph for Table<'_> {
    ghost slots = { λ s i. min (length s.edges.now) 1000 };

    ghost leads = { λ s i k. (if nat_eq (slice_index_or s.edges.now k (0, 0)).0 i then Some (slice_index_or s.edges.now k (0, 0)).1 else None) };

    fn slot_count(&self, node: u8) -> u32 {
        self.edges.len().min(1000) as u32
    }

    fn slot(&self, node: u8, slot: u32) -> Option<u8> {
        let slot = slot as usize;
        if slot >= self.edges.len() {
            return None;
        }
        let (from, to) = self.edges[slot];
        if from == node { Some(to) } else { None }
    }
}

// One stop.
#[derive(Drop)]
struct At(u8);

impl Stops for At {
    ghost stop = { λ s i. (i == s.0) };

    fn is_stop(&self, node: u8) -> bool {
        node == self.0
    }
}

// A line, a self loop, two cycles, of which one is entered from without, the same edge twice, and two ways to one node.
const EDGES: [(u8, u8); 16] = [
    (0, 1),
    (1, 2),
    (7, 7),
    (10, 11),
    (11, 12),
    (12, 10),
    (20, 21),
    (21, 22),
    (22, 21),
    (3, 255),
    (3, 255),
    (255, 4),
    (30, 31),
    (30, 32),
    (31, 33),
    (32, 33),
];

// Every pair of nodes with a path from the first to the second.
const PATHS: [(u8, u8); 27] = [
    (0, 1),
    (0, 2),
    (1, 2),
    (7, 7),
    (10, 10),
    (10, 11),
    (10, 12),
    (11, 10),
    (11, 11),
    (11, 12),
    (12, 10),
    (12, 11),
    (12, 12),
    (20, 21),
    (20, 22),
    (21, 21),
    (21, 22),
    (22, 21),
    (22, 22),
    (3, 255),
    (3, 4),
    (255, 4),
    (30, 31),
    (30, 32),
    (30, 33),
    (31, 33),
    (32, 33),
];

fn all_zero(marks: &[u8]) -> bool {
    marks.iter().all(|mark| *mark == 0)
}

// Asks with marks full of rubbish, and sees that each is zero afterwards.
fn ask(
    rt: &impl Abort,
    edges: &[(u8, u8)],
    from: u8,
    to: u8,
    marks: &mut [u8],
    want: Result<bool, (u8, u32)>,
) {
    assert_eq!(rt;
        reaches(&Table { edges }, from, to, marks).map_err(numbered),
        want
    );
    assert!(rt; all_zero(marks));
}

#[test]
fn every_pair_of_nodes_is_answered(rt: HostRuntime) {
    for from in 0..256u16 {
        for to in 0..256u16 {
            let (from, to) = (from as u8, to as u8);
            ask(
                &rt,
                &EDGES,
                from,
                to,
                &mut [0xa5; 256],
                Ok(PATHS.contains(&(from, to))),
            );
        }
    }
}

#[test]
fn every_mark_is_zero_afterwards(rt: HostRuntime) {
    ask(&rt, &EDGES, 0, 2, &mut [], Err((14, 0)));
    ask(&rt, &EDGES, 0, 2, &mut [0xa5; 255], Err((14, 0)));
    ask(&rt, &EDGES, 0, 2, &mut [0xa5; 300], Ok(true));
}

// Each node leads to the next, and node 255 to node 0.
fn draw_ring(edges: &mut [(u8, u8)]) {
    for (i, edge) in edges.iter_mut().enumerate() {
        let node = (i % 256) as u8;
        *edge = (node, node.wrapping_add(1));
    }
}

#[test]
fn a_line_of_every_node_is_followed(rt: HostRuntime) {
    let mut ring = [(0, 0); 256];
    draw_ring(&mut ring);
    ask(&rt, &ring, 255, 255, &mut [0xa5; 256], Ok(true));
    let line = &ring[0..255];
    ask(&rt, line, 0, 255, &mut [0xa5; 256], Ok(true));
    ask(&rt, line, 0, 0, &mut [0xa5; 256], Ok(false));
}

// Whether a path leads from `from` to `to` that does not pass the stop.
fn leads(stop: u8, from: u8, to: u8) -> Result<bool, Refusal> {
    let mut marks = [0xa5; 256];
    let mut guard = Marks::over(&mut marks);
    guard.follow_unstopped(&Table { edges: &EDGES }, &At(stop), from)?;
    Ok(guard.is_marked(to))
}

#[test]
fn stops_are_not_passed(rt: HostRuntime) {
    // between the ends of every path, of one of two, and at the ends
    assert_eq!(rt; leads(1, 0, 2), Ok(false));
    assert_eq!(rt; leads(31, 30, 33), Ok(true));
    assert_eq!(rt; leads(0, 0, 2), Ok(true));
    assert_eq!(rt; leads(2, 0, 2), Ok(true));
    assert_eq!(rt; leads(10, 10, 10), Ok(true));
}

// The second of two pairs, under the guard of the first.
fn linked(from: u8, to: u8) -> Result<bool, Refusal> {
    let pair = Pair {
        from,
        to,
        linked: true,
    };
    let mut pairs = [Pair { to: 255, ..pair }, pair];
    link(&Table { edges: &EDGES }, &mut pairs, &mut [0xa5; 256])?;
    Ok(pairs[1].linked)
}

// A node below 32.
fn near(from: u8, node: u8, marks: &mut [u8]) -> Result<bool, Refusal> {
    let mut all = [true; 32];
    reach(&Table { edges: &EDGES }, from, &mut all, marks)?;
    Ok(all[node as usize % 32])
}

#[test]
fn one_guard_serves_many_questions(rt: HostRuntime) {
    assert_eq!(rt; linked(3, 4), Ok(true));
    assert_eq!(rt; linked(0, 0), Ok(false));
    assert_eq!(rt; near(0, 0, &mut [0xa5; 256]), Ok(true));
    assert_eq!(rt; near(0, 3, &mut [0xa5; 256]), Ok(false));
    assert_eq!(rt;
        near(0, 0, &mut [0xa5; 255]).map_err(numbered),
        Err((14, 0))
    );
}

// Two searches in marks that are enough: 1 leads on to 2, and is a stop in the second.
fn search_twice(rt: &impl Abort, marks: &mut NodeMarks) {
    let table = Table { edges: &EDGES };
    let mut guard = NodeGuard::over(marks);
    guard.follow(&table, 0);
    assert!(rt; guard.is_marked(1));
    assert!(rt; guard.is_marked(2));
    assert!(rt; !guard.is_marked(0));
    guard.follow_unstopped(&table, &At(1), 0);
    assert!(rt; guard.is_marked(1));
    assert!(rt; !guard.is_marked(2));
}

#[test]
fn marks_that_are_enough_end_zero(rt: HostRuntime) {
    let mut marks = [7; 256];
    search_twice(&rt, &mut marks);
    assert!(rt; all_zero(&marks));
}

// Takes the mark of a node, and leaves another there.
#[derive(Drop)]
struct Exchange {
    node: u8,
    mark: u8,
}

impl Borrows for Exchange {
    type Answer = u8;

    ghost gives = { λ work old taken new. (taken ≡ slice_index old work.node) × (new ≡ slice_set old work.node work.mark) };

    fn answer(self, marks: &mut NodeMarks) -> u8 {
        let taken = marks[self.node as usize];
        marks[self.node as usize] = self.mark;
        taken
    }
}

// A loan of a guard finds what the loan before it left, or the search before it.
fn lend_in_turn(rt: &impl Abort, marks: &mut [u8]) {
    let mut guard = Marks::over(marks);
    assert_eq!(rt;
        guard.lend(Exchange { node: 3, mark: 0 }).map_err(numbered),
        Ok(7)
    );
    assert!(rt; !guard.is_marked(3));
    assert!(rt; guard.is_marked(2));
    assert!(rt; guard.is_marked(4));
    assert_eq!(rt;
        guard.lend(Exchange { node: 3, mark: 5 }).map_err(numbered),
        Ok(0)
    );
    assert!(rt; guard.is_marked(3));
    guard
        .follow(&Table { edges: &EDGES }, 0)
        .map_err(numbered)
        .expect(rt, "enough marks");
    assert_eq!(rt;
        guard.lend(Exchange { node: 1, mark: 9 }).map_err(numbered),
        Ok(1)
    );
}

// A loan of too few marks is refused, and they are as they were.
fn lend_few(rt: &impl Abort, marks: &mut [u8]) {
    let mut guard = Marks::over(marks);
    assert_eq!(rt;
        guard.lend(Exchange { node: 3, mark: 0 }).map_err(numbered),
        Err((14, 0))
    );
    assert!(rt; guard.is_marked(3));
}

#[test]
fn marks_are_lent_and_end_zero(rt: HostRuntime) {
    let mut marks = [7; 300];
    lend_in_turn(&rt, &mut marks);
    assert!(rt; all_zero(&marks));
    let mut few = [7; 255];
    lend_few(&rt, &mut few);
    assert!(rt; all_zero(&few));
}
